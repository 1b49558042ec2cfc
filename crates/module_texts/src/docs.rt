//! What is said of items, as doc comments.
ghost use Rattle.std.specs.Prelude.{◌≡◌, map};
ghost use Rattle.module_texts.specs.Docs.{doc_view, docs_behind, own_doc};

/// A text that is said of an item, with the item's name.
#[derive(Drop)]
pub struct ItemDoc {
    pub item: String,
    pub text: String,
}

/// The text of the first, where that is the item's; else none.
pub(crate) fn own_doc<'a>(docs: &'a [ItemDoc], name: &str) -> &'a str
    ensures { result.now ≡ own_doc (map doc_view docs.now) name.now }
{
    match docs.split_first() {
        Some((first, _)) => {
            if first.item.as_str() == name {
                return first.text.as_str();
            }
            ""
        }
        None => "",
    }
}

/// What is left behind the item of that name.
pub(crate) fn docs_behind<'a>(docs: &'a [ItemDoc], name: &str) -> &'a [ItemDoc]
    ensures { map doc_view result.now ≡ docs_behind (map doc_view docs.now) name.now }
{
    match docs.split_first() {
        Some((first, rest)) => {
            if first.item.as_str() == name {
                return rest;
            }
            docs
        }
        None => docs,
    }
}

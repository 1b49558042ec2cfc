//! Rows without parts.
use crate::given::GivenValues;
use entry_types::IntName;
use schema_defs::Format;
use schema_types::StringValidation;

/// An entry that a schema has by itself. `title` is its wanted name, where it makes an item.
#[derive(Clone, Copy)]
pub enum Leaf<'d> {
    Bool,
    Integer(IntName),
    /// Any text.
    Text,
    /// Texts that meet keywords of texts.
    Ruled {
        title: Option<&'d String>,
        texts: &'d StringValidation,
    },
    Native(Format),
    Any,
    Unit,
    /// The texts among the listed values that meet the keywords of texts, each once; an option of them where null is listed.
    Listed {
        title: Option<&'d String>,
        values: GivenValues<'d>,
        texts: Option<&'d StringValidation>,
    },
    /// The one text, where it meets the keywords of texts.
    Constant {
        title: Option<&'d String>,
        text: &'d str,
        texts: Option<&'d StringValidation>,
    },
    /// Nothing.
    Never {
        title: Option<&'d String>,
    },
}

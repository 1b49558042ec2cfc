//! Lifetimes are compared by their names alone.
ghost use Rattle.std.specs.Prelude.{Some, string_bytes};
ghost use Rattle.std.specs.Cmp;
ghost use Rattle.std.specs.Cmp.{on_equiv, on_total, on_po, on_per};
ghost use Rattle.std.specs.Cmp.Lexicographic.{nat_list_eq_equiv, nat_list_cmp_total, texts_ties, texts_po};
ghost use Rattle.std.specs.String.{string_cmp, string_eq};
ghost use Rattle.std.proofs.Common.{refl};

use crate::tree::Lifetime;
use std::cmp::Ordering;

impl PartialEq for Lifetime {
    ghost eq = { λ a b. string_eq a.ident.text b.ident.text };

    ghost laws = { on_per (λ l. string_bytes l.ident.text) (Cmp.partial_equiv_from_equiv nat_list_eq_equiv) };

    fn eq(&self, other: &Lifetime) -> bool {
        self.ident.text == other.ident.text
    }
}

impl Eq for Lifetime {
    ghost laws = { on_equiv (λ l. string_bytes l.ident.text) nat_list_eq_equiv };
}

impl PartialOrd for Lifetime {
    ghost partial_cmp = { λ a b. Some (string_cmp a.ident.text b.ident.text) };

    ghost laws = { on_po (λ l. string_bytes l.ident.text) texts_po };

    fn partial_cmp(&self, other: &Lifetime) -> Option<Ordering> {
        Some(self.cmp(other))
    }
}

impl Ord for Lifetime {
    ghost cmp = { λ a b. string_cmp a.ident.text b.ident.text };

    ghost total = { on_total (λ l. string_bytes l.ident.text) nat_list_cmp_total };

    ghost matches_partial_cmp = { λ a b. refl };

    ghost matches_eq = { λ a b. texts_ties (string_bytes a.ident.text) (string_bytes b.ident.text) };

    fn cmp(&self, other: &Lifetime) -> Ordering {
        self.ident.text.cmp(&other.ident.text)
    }
}

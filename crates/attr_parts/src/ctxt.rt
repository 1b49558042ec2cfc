//! The context that collects diagnostics in order.
ghost use Rattle.std.specs.Prelude.{◌≡◌, ◌↔◌, [], ◌∷◌, ◌++◌, map, OnOk, OnErr, IfErr, IsOk};
ghost use Rattle.attr_parts.specs.Diagnostics.{diagnostics, diagnostic_view, kind_view, syntax};

use crate::kind::{DiagKind, Diagnostic};
use std::alloc::{AllocError, Global};
use syntax_trees::SyntaxError;
use token_trees::Span;

/// Collects diagnostics. A context must be spent by `check`.
pub struct Ctxt {
    errors: Vec<Diagnostic>,
}

impl Ctxt {
    /// No diagnostics yet. Takes no memory.
    pub fn new(alloc: Global) -> Ctxt
        ensures { diagnostics result ≡ [] }
    {
        Ctxt {
            errors: Vec::new(alloc),
        }
    }

    /// A diagnostic, appended last. Where memory runs out, nothing changes.
    pub fn push(&mut self, diagnostic: Diagnostic) -> Result<(), AllocError>
        ensures ok { OnOk result (diagnostics self.new ≡ diagnostics self.old ++ diagnostic_view diagnostic ∷ []) }
        ensures err { OnErr result (diagnostics self.new ≡ diagnostics self.old) }
    {
        self.errors.push(diagnostic)?;
        Ok(())
    }

    /// A diagnostic at that place, appended last. Where memory runs out, nothing changes.
    pub fn error_spanned_by(&mut self, at: Span, kind: DiagKind) -> Result<(), AllocError>
        ensures ok { OnOk result (diagnostics self.new ≡ diagnostics self.old ++ record { kind = kind_view kind; span = at } ∷ []) }
        ensures err { OnErr result (diagnostics self.new ≡ diagnostics self.old) }
    {
        self.push(Diagnostic { kind, span: at })
    }

    /// An error of syntax, appended last. Where memory runs out, nothing changes.
    pub fn syn_error(&mut self, err: SyntaxError) -> Result<(), AllocError>
        ensures ok { OnOk result (diagnostics self.new ≡ diagnostics self.old ++ syntax err ∷ []) }
        ensures err { OnErr result (diagnostics self.new ≡ diagnostics self.old) }
    {
        self.error_spanned_by(err.span, DiagKind::Syntax(err.kind))
    }

    /// Ok where nothing was collected, else all diagnostics in order. Takes no memory.
    pub fn check(self) -> Result<(), Vec<Diagnostic>>
        ensures ok { IsOk result ↔ (diagnostics self ≡ []) }
        ensures err { IfErr result (λ v. map diagnostic_view v.items ≡ diagnostics self) }
    {
        let Ctxt { errors } = self;
        if errors.is_empty() {
            drop(errors);
            return Ok(());
        }
        Err(errors)
    }
}

//! Kinds of JSON values.
ghost use Rattle.std.specs.Prelude.{◌≡◌, ◌&&◌, ◌||◌, not, true, false};
ghost use Rattle.std.specs.List.{list_all, list_any};
ghost use Rattle.writing_laws.specs.Kinds.{every_kind, same_kind};
ghost use Rattle.value_kinds.specs.Kinds.{has, kind_view, kinds_where};

/// A kind of JSON values; whole numbers and fractions are of one (RFC 8259).
#[derive(Clone, Copy)]
pub enum Kind {
    Null,
    Boolean,
    Number,
    String,
    Array,
    Object,
}

/// Kinds of JSON values.
#[derive(Clone, Copy, Debug, PartialEq, Eq)]
pub struct TypeKinds {
    pub null: bool,
    pub boolean: bool,
    pub number: bool,
    pub string: bool,
    pub array: bool,
    pub object: bool,
}

const NONE: TypeKinds = TypeKinds {
    null: false,
    boolean: false,
    number: false,
    string: false,
    array: false,
    object: false,
};

impl TypeKinds {
    /// No kind.
    pub fn none() -> TypeKinds
        ensures { result ≡ kinds_where (λ k. false) }
    {
        NONE
    }

    /// Every kind.
    pub fn all() -> TypeKinds
        ensures { result ≡ kinds_where (λ k. true) }
    {
        TypeKinds {
            null: true,
            boolean: true,
            number: true,
            string: true,
            array: true,
            object: true,
        }
    }

    /// One kind.
    pub fn only(kind: Kind) -> TypeKinds
        ensures { result ≡ kinds_where (λ k. same_kind k (kind_view kind)) }
    {
        match kind {
            Kind::Null => TypeKinds { null: true, ..NONE },
            Kind::Boolean => TypeKinds {
                boolean: true,
                ..NONE
            },
            Kind::Number => TypeKinds {
                number: true,
                ..NONE
            },
            Kind::String => TypeKinds {
                string: true,
                ..NONE
            },
            Kind::Array => TypeKinds {
                array: true,
                ..NONE
            },
            Kind::Object => TypeKinds {
                object: true,
                ..NONE
            },
        }
    }

    /// The kinds that one of the two has.
    pub fn either(self, other: TypeKinds) -> TypeKinds
        ensures { result ≡ kinds_where (λ k. has self k || has other k) }
    {
        TypeKinds {
            null: self.null || other.null,
            boolean: self.boolean || other.boolean,
            number: self.number || other.number,
            string: self.string || other.string,
            array: self.array || other.array,
            object: self.object || other.object,
        }
    }

    /// The kinds that both have.
    pub fn both(self, other: TypeKinds) -> TypeKinds
        ensures { result ≡ kinds_where (λ k. has self k && has other k) }
    {
        TypeKinds {
            null: self.null && other.null,
            boolean: self.boolean && other.boolean,
            number: self.number && other.number,
            string: self.string && other.string,
            array: self.array && other.array,
            object: self.object && other.object,
        }
    }

    /// Whether there is a kind.
    pub fn is_some(self) -> bool
        ensures { result ≡ list_any (has self) every_kind }
    {
        self != NONE
    }

    /// Whether some kind is in both.
    pub fn meets(self, other: TypeKinds) -> bool
        ensures { result ≡ list_any (λ k. has self k && has other k) every_kind }
    {
        self.both(other).is_some()
    }

    /// Whether no kind is in both.
    pub fn is_apart(self, other: TypeKinds) -> bool
        ensures { result ≡ list_all (λ k. not (has self k && has other k)) every_kind }
    {
        !self.meets(other)
    }
}

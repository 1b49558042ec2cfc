//! The types of fields.
use schema_defs::Format;

/// A type, as a reader of JSON values takes it.
pub enum ValueType {
    Boolean,
    /// Whole numbers from the least to the greatest.
    Integer { least: i128, greatest: i128 },
    Text,
    /// A text that has the format.
    Native(Format),
    Any,
    Unit,
    Optional(Box<ValueType>),
    Boxed(Box<ValueType>),
    List(Box<ValueType>),
    Set(Box<ValueType>),
    /// The type of the names, and that of the values.
    Map(Box<ValueType>, Box<ValueType>),
    Tuple(Vec<ValueType>),
    /// The type of the items, and their number.
    Array(Box<ValueType>, u64),
    /// The item of that name.
    Item(String),
    /// A type that no reader knows.
    Outside,
}

impl Drop for ValueType {
    #[cycle(let_go)]
    fn drop(self) {
        match self {
            ValueType::Boolean
            | ValueType::Integer {
                least: _,
                greatest: _,
            }
            | ValueType::Text
            | ValueType::Native(_)
            | ValueType::Any
            | ValueType::Unit
            | ValueType::Outside => {}
            ValueType::Optional(_inner) | ValueType::Boxed(_inner) => {}
            ValueType::List(_items) | ValueType::Set(_items) | ValueType::Array(_items, _) => {}
            ValueType::Map(_names, _values) => {}
            ValueType::Tuple(_items) => {}
            ValueType::Item(_name) => {}
        }
    }
}

//! What JSON schemas are, how a value is read as a schema document, and which values a document admits. The definitions stand in specs/.
#![tactic(auto)]

pub mod examples;
pub mod laws;

/// A name that the keyword `type` may give (JSON Schema Draft 7 validation, 6.1.1).
#[derive(Clone, Copy, PartialEq, Eq)]
pub enum InstanceType {
    Null,
    Boolean,
    Object,
    Array,
    Number,
    Text,
    Integer,
}

/// How a member that is null is judged. Under `Strict` `properties` binds each member that it names. Under `NullAbsent` null may stand for
/// the absence of a property that isn't required, so `properties` says nothing of it there.
#[derive(Clone, Copy, PartialEq, Eq)]
pub enum Setting {
    Strict,
    NullAbsent,
}

/// The formats of texts that are judged. `DateTime` is `date-time`; `Ip` is either of the two after it.
#[derive(Clone, Copy, PartialEq, Eq)]
pub enum Format {
    Uuid,
    Date,
    DateTime,
    Ip,
    Ipv4,
    Ipv6,
}

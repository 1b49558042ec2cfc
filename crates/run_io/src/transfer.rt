//! The two loops over the outside: writing all of some bytes, and reading an input to its end.
ghost use Rattle.std.specs.Prelude.{◌≡◌, ℕ, ◌<◌, ◌≤◌, List, [], length, Some, IfOk, OnOk, OnErr, IsErrOf, vec_len};
ghost use Rattle.schema_defs.specs.Faults.{Rises};
ghost use Rattle.run_io.specs.Bytes.{Appends, AppendsPrefix};

use crate::fault::{InputFault, SinkFault};
use crate::outside::{Sink, Source};
use std::alloc::{AllocError, Global};

/// Writes all the bytes, in as many calls as it takes. A call that took none of them counts as one that failed.
pub fn put<K: Sink>(sink: &mut K, bytes: &[u8]) -> Result<(), SinkFault>
    ensures whole { OnOk result (Appends (K.written sink.old) (K.written sink.new) bytes.now) }
    ensures front { OnErr result (AppendsPrefix (K.written sink.old) (K.written sink.new) bytes.now) }
    ensures fault { IsErrOf result SinkFault.Failed → Rises (K.faults sink.old) (K.faults sink.new) }
    ensures kept { K.faults sink.old ≤ K.faults sink.new }
{
    let mut done = 0;
    while done < bytes.len() {
        match sink.write(&bytes[done..]) {
            Ok(0) => return Err(SinkFault::Failed),
            Ok(count) => done += count,
            Err(fault) => return Err(fault),
        }
    }
    Ok(())
}

// The most that one read takes, in bytes.
const PIECE: usize = 65536;

/// Reads the source to its end, which is where a read gave nothing. An input of more than `limit` bytes is too long;
/// at most a piece of it is read past the limit.
pub fn read_input<S: Source>(
    alloc: Global,
    source: &mut S,
    limit: usize,
) -> Result<Vec<u8>, InputFault>
    ensures whole { (all : List ℕ) → S.left source.old ≡ Some all → IfOk result (λ v. v.items ≡ all) }
    ensures spent { (all : List ℕ) → S.left source.old ≡ Some all → OnOk result (S.left source.new ≡ Some []) }
    ensures within { IfOk result (λ v. vec_len v ≤ limit) }
    ensures too_long { (all : List ℕ) → S.left source.old ≡ Some all
        → IsErrOf result InputFault.TooLong → limit < length all }
    ensures fault { IsErrOf result InputFault.Failed → Rises (S.faults source.old) (S.faults source.new) }
    ensures kept { S.faults source.old ≤ S.faults source.new }
{
    match buffer_of(alloc, PIECE) {
        Ok(mut buffer) => read_pieces(alloc, source, buffer.as_mut_slice(), limit),
        Err(_) => Err(InputFault::Memory),
    }
}

// Reads the source to its end by pieces that the buffer has room for.
fn read_pieces<S: Source>(
    alloc: Global,
    source: &mut S,
    buffer: &mut [u8],
    limit: usize,
) -> Result<Vec<u8>, InputFault>
    requires { 0 < length buffer.old }
    ensures whole { (all : List ℕ) → S.left source.old ≡ Some all → IfOk result (λ v. v.items ≡ all) }
    ensures spent { (all : List ℕ) → S.left source.old ≡ Some all → OnOk result (S.left source.new ≡ Some []) }
    ensures within { IfOk result (λ v. vec_len v ≤ limit) }
    ensures too_long { (all : List ℕ) → S.left source.old ≡ Some all
        → IsErrOf result InputFault.TooLong → limit < length all }
    ensures fault { IsErrOf result InputFault.Failed → Rises (S.faults source.old) (S.faults source.new) }
    ensures kept { S.faults source.old ≤ S.faults source.new }
{
    let mut input = Vec::new(alloc);
    loop {
        let count = match source.read(buffer) {
            Ok(count) => count,
            Err(_) => return Err(InputFault::Failed),
        };
        if count == 0 {
            return Ok(input);
        }
        if count > limit - input.len() {
            return Err(InputFault::TooLong);
        }
        match input.extend_from_slice(&buffer[..count]) {
            Ok(()) => {}
            Err(_) => return Err(InputFault::Memory),
        }
    }
}

// A buffer of that many bytes.
fn buffer_of(alloc: Global, size: usize) -> Result<Vec<u8>, AllocError>
    ensures { IfOk result (λ v. vec_len v ≡ size) }
{
    vec![in alloc; 0u8; size]
}

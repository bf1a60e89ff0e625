//! Blocks by the rule of header tables, with ample memory.

ghost use Rattle.std.specs.Prelude.{IfOk};
ghost use Rattle.std.specs.List.{All};
ghost use Rattle.header_blocks.specs.Chosen.{HasShortStrings};

use connection_state::read_block;
use header_blocks::{Decoded, Decoder, Encoder, Field, Policy};
use std::alloc::Global;
use std::test::*;

/// The octets `828684410f7777772e6578616d706c652e636f6d` of RFC 7541, appendix C.3.1.
const REQUEST: [u8; 20] = [
    0x82, 0x86, 0x84, 0x41, 0x0f, 0x77, 0x77, 0x77, 0x2e, 0x65, 0x78, 0x61, 0x6d, 0x70, 0x6c, 0x65,
    0x2e, 0x63, 0x6f, 0x6d,
];

fn is_same(octets: &[u8], wanted: &[u8]) -> bool {
    octets == wanted
}

#[test]
fn a_request_is_read(rt: HostRuntime) -> Result<(), Fail> {
    let mut decoder = Decoder::new(rt.alloc(), 4096);
    let Decoded::Fields(fields) = read_block(&mut decoder, rt.alloc(), &REQUEST, 16384)? else {
        return Err(Fail::from("too large"));
    };
    assert_eq!(rt; fields.len(), 4);
    assert!(rt; is_same(fields[3].name(), b":authority"));
    assert!(rt; is_same(fields[3].value(), b"www.example.com"));
    Ok(())
}

/// The field `:status: 200`, which is at index 8 of the static table (RFC 7541, appendix A).
fn status(alloc: Global) -> Result<Vec<Field>, Fail>
    ensures { IfOk result (λ fields. All HasShortStrings fields.items) }
{
    let mut fields = Vec::new(alloc);
    fields.push(Field::of(alloc, b":status", b"200")?)?;
    Ok(fields)
}

#[test]
fn a_status_is_written_behind_due_maxima(rt: HostRuntime) -> Result<(), Fail> {
    let mut encoder = Encoder::new(rt.alloc(), Policy::Indexing);
    let fields = status(rt.alloc())?;
    let mut block = Vec::new(rt.alloc());
    block.push(7)?;
    encoder.peer_limit(0);
    encoder.peer_limit(30);
    encoder.encode(&fields, &mut block)?;
    assert!(rt; is_same(&block, &[7, 0x20, 0x3e, 0x88]));
    Ok(())
}

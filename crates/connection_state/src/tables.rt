//! What a decoder of header blocks reads, in the words of the rule of the tables. A joiner is seen
//! in the model's words already.

ghost use Rattle.std.specs.Prelude.{◌≡◌, Some, None, IfOk, IfErr, OnOk, OnErr};
ghost use Rattle.theory_header_tables.specs.Answers.{IsReadAs, IsUnreadAs};

use header_blocks::{DecodeFault, Decoded, Decoder};
use std::alloc::Global;

/// The fields of a block, or that they are larger than `cap` octets (RFC 7541, section 4.1), read
/// over the decoder's table, which is then the one that the block leaves. A fault says that the
/// octets are no block, or that memory was refused; the decoder keeps it. Only a decoder without a
/// fault reads.
pub fn read_block(
    decoder: &mut Decoder,
    alloc: Global,
    block: &[u8],
    cap: usize,
) -> Result<Decoded, DecodeFault>
    requires { decoder.old.fault ≡ None }
    ensures read { IfOk result (λ decoded. IsReadAs decoder.old.table block.now cap decoded decoder.new.table) }
    ensures goes_on { OnOk result (decoder.new.fault ≡ None) }
    ensures unread { IfErr result (IsUnreadAs decoder.old.table block.now) }
    ensures stays { IfErr result (λ fault. decoder.new.fault ≡ Some fault) }
    ensures table_stays { OnErr result (decoder.new.table ≡ decoder.old.table) }
{
    decoder.decode(alloc, block, cap)
}

//! Laws: no octets lie in the index of a table.

ghost use Rattle.std.specs.Prelude.{◌≡◌, Option};
ghost use Rattle.hpack_table.specs.HeldInside.{in_chains, in_index_if};
ghost use Rattle.hpack_table.specs.declared.chains.Chains.TheInside.{Inside as ChainsInside};
ghost use Rattle.hpack_table.specs.declared.index.Index.{Index};

/// What lies between calls in the index of a table, and in its chains, are numbers, and no octet:
/// each field is counted (`specs/HeldInside`), also of each entry.
pub fn what_is_held_is_seen()
    ensures chains { (chains : ChainsInside) → in_chains chains ≡ 0 }
    ensures index { (index : Option Index) → in_index_if index ≡ 0 }
{}

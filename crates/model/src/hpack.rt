//! Laws of HPACK's texts (RFC 7541).

ghost use Rattle.std.specs.Prelude.{◌≡◌, ◌≤◌, ◌++◌, length, map, List, ℕ, true};
ghost use Rattle.model.specs.Integers.{IsInt};
ghost use Rattle.model.specs.Blocks.{Block};
ghost use Rattle.model.specs.Huffman.{Huff};
ghost use Rattle.model.specs.Messages.{Field};
ghost use Rattle.model.specs.Tables.{keep, Table, total_size};
ghost use Rattle.model.specs.Maxima.{Maxima};
ghost use Rattle.model.specs.Tapes.{Noted};
ghost use Rattle.model.specs.Decoding.{are_read, Decodes};

/// No integer's text begins another's, and each has one value (section 5.1).
pub fn one_integer()
    ensures { (prefix : ℕ) (a b x y : List ℕ) (v w : ℕ) → IsInt prefix a v → IsInt prefix b w → a ++ x ≡ b ++ y → (a ≡ b) × (v ≡ w) }
{}

/// Huffman text has one string (section 5.2).
pub fn one_string()
    ensures { (octets s t : List ℕ) → Huff octets s → Huff octets t → s ≡ t }
{}

/// A table and a block determine the fields and the next table (sections 3 and 6).
pub fn one_block()
    ensures { (table next other : Table) (octets : List ℕ) (fields others : List Field) → Block table octets fields next → Block table octets others other
        → (fields ≡ others) × (next ≡ other) }
{}

/// What a table keeps is the longest front of its fields whose sizes sum to at most the maximum (section 4).
pub fn longest_front()
    ensures fits { (max : ℕ) (fields : List Field) → total_size (keep max fields) ≤ max }
    ensures front { (max : ℕ) (fields : List Field) → (rest : List Field) × (fields ≡ keep max fields ++ rest) }
    ensures longest { (max : ℕ) (fields front rest : List Field) → fields ≡ front ++ rest → total_size front ≤ max → length front ≤ length (keep max fields) }
{}

/// A table's maximum and the limits since the block before determine the maxima with which a block
/// begins (section 4.2).
pub fn one_announcement()
    ensures { (maximum : ℕ) (limits maxima others : List ℕ) → Maxima maximum limits maxima → Maxima maximum limits others → maxima ≡ others }
{}

/// The frames of a direction determine what their header blocks say, and the table that these
/// leave, where each block is read (RFC 9113, section 4.3).
pub fn one_decoding()
    ensures { (noted others : List Noted) (table other : Table) → map (λ n. n.frame) noted ≡ map (λ n. n.frame) others → are_read noted ≡ true
        → are_read others ≡ true → Decodes noted table → Decodes others other → (noted ≡ others) × (table ≡ other) }
{}

// Laws of the grammar in the contracts of the calls.

ghost use Rattle.std.specs.Prelude.{◌≡◌, ◌≢◌, ◌*◌, ◌/◌, ◌++◌, ◌∷◌, [], IsSome, List, length, ℕ};
ghost use Rattle.rtp_extension.specs.declared.form.Form.{Form};
ghost use Rattle.sfu_base.specs.Bytes.{AreBytes};
ghost use Rattle.rtp_extension.specs.Blocks.{IsBlock, IsWhole};
ghost use Rattle.rtp_extension.specs.Forms.{Fits, IsBetween, PlainElement, element_bytes};
ghost use Rattle.rtp_extension.specs.Reading.{elements_in, elements_of, value_of};
ghost use Rattle.rtp_extension.specs.Reblocked.{block_with, profile_for, replaced};

/// Every block of bytes is in the grammar: the grammar accepts the block together with the elements that are read from the block.
pub fn each_block_is_in_the_grammar()
    ensures { (form : Form) (block : List ℕ) → AreBytes block → IsBlock form block (elements_in form block) }
{}

/// If the grammar accepts a block together with a list of elements, exactly this list is read from the block. So each block has only one list of
/// elements.
pub fn a_block_has_one_reading()
    ensures read { (form : Form) (block : List ℕ) (es : List PlainElement) → IsBlock form block es → elements_in form block ≡ es }
    ensures one { (form : Form) (block : List ℕ) (es fs : List PlainElement) → IsBlock form block es → IsBlock form block fs → es ≡ fs }
{}

/// If two sequences of elements and padding are concatenated, the result has the elements of the first sequence, then those of the second. The bytes
/// of one element yield exactly that element, and a zero byte yields no element. So the elements that the writers appended to a buffer are read back,
/// even if zero bytes follow them.
pub fn whole_blocks_join()
    ensures joined { (form : Form) (a b : List ℕ) (es fs : List PlainElement) → IsWhole form a es → IsWhole form b fs → IsWhole form (a ++ b) (es ++ fs) }
    ensures element { (form : Form) (e : PlainElement) → Fits form e → IsWhole form (element_bytes form e) (e ∷ []) }
    ensures padding { (form : Form) → IsWhole form (0 ∷ []) [] }
    ensures read { (form : Form) (block : List ℕ) (es : List PlainElement) → IsWhole form block es → elements_in form block ≡ es }
{}

/// The block that `reblock` writes is the new block. It has the elements of the old block in order, with one value replaced. So `find` returns the
/// new value for the replaced id, and the old value for every other id. The length of the new block is a whole number of 32-bit words.
pub fn a_new_block_has_the_old_elements_but_one()
    ensures elements { (profile id : ℕ) (block value : List ℕ) → AreBytes block → IsSome (value_of id (elements_of profile block))
        → IsBetween 1 255 (length value)
        → elements_of (profile_for profile value) (block_with profile block id value) ≡ replaced id value (elements_of profile block) }
    ensures found { (id : ℕ) (value : List ℕ) (es : List PlainElement) → IsSome (value_of id es)
        → value_of id (replaced id value es) ≡ Some value }
    ensures others { (id other : ℕ) (value : List ℕ) (es : List PlainElement) → other ≢ id
        → value_of other (replaced id value es) ≡ value_of other es }
    ensures words { (profile id : ℕ) (block value : List ℕ)
        → length (block_with profile block id value) ≡ 4 * (length (block_with profile block id value) / 4) }
{}

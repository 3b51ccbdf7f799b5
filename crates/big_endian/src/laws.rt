//! Laws over the two readings of bytes as a number.

ghost use Rattle.big_endian.specs.Numbers.{OneByteMore, SignedIsReadAgain, SignedIsWrittenAgain, UnsignedIsReadAgain, UnsignedIsWrittenAgain};

/// The bytes of a number are read as that number, and a number that was read is written with the
/// same bytes.
#[tactic(auto, using(crate::proofs::Bytes::signed_is_read_again, crate::proofs::Bytes::unsigned_is_read_again, crate::proofs::Bytes::signed_is_written_again, crate::proofs::Bytes::unsigned_is_written_again, crate::proofs::Bytes::one_byte_more))]
pub fn numbers_both_ways()
    ensures signed_read { SignedIsReadAgain }
    ensures unsigned_read { UnsignedIsReadAgain }
    ensures signed_written { SignedIsWrittenAgain }
    ensures unsigned_written { UnsignedIsWrittenAgain }
    ensures one_byte_more { OneByteMore }
{}

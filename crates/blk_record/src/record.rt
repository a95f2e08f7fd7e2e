// Records with checksums, over windows of bytes.
ghost use Rattle.std.specs.Prelude.{◌≡◌, ℕ, ◌≤◌, List, length, take, true};
ghost use Rattle.std.specs.Borrow.{Array, GName, Lends, sem, u8 as byte};
ghost use Rattle.spec_image.specs.Bytes.{content, spliced, word_at};
ghost use Rattle.spec_image.specs.Steps.{with_word};
ghost use Rattle.spec_format.specs.Records.{checks, seal_of};
ghost use Rattle.blk_record.specs.Fields.{IsField, OtherFieldsStay, WrittenFieldsLeaveOthers, WrittenWordsAreRead, field_bytes};

/// A record of little endian words with a checksum. The checksum is absent (0) or the hash of the bytes before it.
///
/// The record lies at the start of a window of bytes.
pub trait Record {
    /// The number of the record's bytes, for clauses.
    ghost size: { ℕ };

    /// The place of the checksum, for clauses.
    ghost seal_place: { ℕ };

    /// The bytes of the window at whose start the record lies.
    ghost window_of: { Self → List ℕ };

    /// The number of the record's bytes.
    const SIZE: usize;

    /// The place of the checksum.
    const SEAL: usize;

    /// The bytes of the record.
    fn bytes(&self) -> &[u8]
        ensures enough { size ≤ length (window_of self.now) }
        ensures value { result.now ≡ take size (window_of self.now) };

    /// The word at a place.
    fn word(&self, at: usize) -> u32
        requires { IsField size at }
        ensures { result ≡ word_at (content (window_of self.now)) at };

    /// Whether the checksum is 0 or the hash of the bytes before it.
    fn checks(&self) -> bool
        ensures { result ≡ checks seal_place (window_of self.now) };
}

/// A record that is written.
pub trait RecordMut: Record {
    /// The reference by which it writes.
    ghost reference: { Self → GName };

    // The view with these bytes over those of its window from a place on.
    ghost with_bytes: { Self → ℕ → List ℕ → Self };

    /// Writes a word at a place.
    fn set_word(&mut self, at: usize, value: u32)
        requires { IsField Self.size at }
        ensures window { Self.window_of self.new ≡ with_word at value (Self.window_of self.old) }
        ensures set { word_at (content (Self.window_of self.new)) at ≡ value }
        ensures others { OtherFieldsStay Self.size at (Self.window_of self.old) (Self.window_of self.new) }
        ensures same_reference { reference self.new ≡ reference self.old };

    /// Makes the checksum 0.
    fn unseal(&mut self)
        ensures window { Self.window_of self.new ≡ with_word Self.seal_place 0 (Self.window_of self.old) }
        ensures checks { checks Self.seal_place (Self.window_of self.new) ≡ true }
        ensures others { OtherFieldsStay Self.size Self.seal_place (Self.window_of self.old) (Self.window_of self.new) }
        ensures same_reference { reference self.new ≡ reference self.old };

    /// Makes the checksum the hash of the bytes before it.
    fn seal(&mut self)
        ensures window { Self.window_of self.new ≡ with_word Self.seal_place (seal_of Self.seal_place (Self.window_of self.old)) (Self.window_of self.old) }
        ensures checks { checks Self.seal_place (Self.window_of self.new) ≡ true }
        ensures others { OtherFieldsStay Self.size Self.seal_place (Self.window_of self.old) (Self.window_of self.new) }
        ensures same_reference { reference self.new ≡ reference self.old };

    /// Lends the four bytes at a place. Once the loan ends, the window has there what was left in them.
    fn field_mut(&mut self, at: usize) -> &mut [u8]
        requires { IsField Self.size at }
        ensures* lends { sem 𝓛 (Lends Self.row (Array byte 0) self.entry result (with_bytes self.old at)) }
        ensures value { result.now ≡ field_bytes at (Self.window_of self.old) }
        ensures four { length result.now ≡ 4 };

    // The bytes lie in its window, and it writes by the same reference.
    ghost window_with: { (view : Self) (at : ℕ) (bytes : List ℕ) → Self.window_of (with_bytes view at bytes) ≡ spliced at bytes (Self.window_of view) };

    ghost reference_with: { (view : Self) (at : ℕ) (bytes : List ℕ) → reference (with_bytes view at bytes) ≡ reference view };
}

/// A field that was lent has the word of the four bytes that were left in it, and all other fields stay.
pub fn lent_fields_are_set()
    ensures set { WrittenWordsAreRead }
    ensures others { WrittenFieldsLeaveOthers }
{}

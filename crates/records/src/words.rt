// Words that name kinds.
ghost use Rattle.std.specs.Prelude.{◌≡◌, ℕ, List};
ghost use Rattle.std.specs.Str.{bytes_eq};
ghost use Rattle.records.specs.Records.{looked};

// A kind that is told by its word.
pub trait Spelled: Copy + 'static {
    ghost kinds: { List Self };

    ghost spelling: { Self → List ℕ };

    // All kinds.
    fn all() -> &'static [Self]
        ensures { result.now ≡ kinds };

    fn word(self) -> &'static [u8]
        ensures { result.now ≡ spelling self };
}

// Whether a field is `word`, whole.
pub fn is_word(bytes: &[u8], word: &[u8]) -> bool
    ensures { result ≡ bytes_eq bytes.now word.now }
{
    bytes == word
}

// The kind that a field names.
pub fn kind_of<K: Spelled>(bytes: &[u8]) -> Option<K>
    ensures { result ≡ looked K.spelling K.kinds bytes.now }
{
    K::all()
        .iter()
        .copied()
        .find(|kind| is_word(bytes, kind.word()))
}

//! Names of a file.
ghost use Rattle.std.specs.Prelude.{◌≡◌};
ghost use Rattle.std.specs.List.{list_all};
ghost use Rattle.grammar.specs.Names.{is_name, is_name_byte};

fn is_name_byte(byte: u8) -> bool
    ensures { result ≡ is_name_byte byte }
{
    byte.is_ascii_alphanumeric() || byte == b'_'
}

fn are_name_bytes(bytes: &[u8]) -> bool
    ensures { result ≡ list_all is_name_byte bytes.now }
{
    bytes.iter().all(|byte| is_name_byte(*byte))
}

// The most bytes of a name (profile).
const MOST_BYTES: usize = 16;

/// Whether it is a name: one to sixteen letters, digits and underscores, the first of them a letter (profile).
pub fn is_name(bytes: &[u8]) -> bool
    ensures { result ≡ is_name bytes.now }
{
    match bytes {
        [] => false,
        [first, ..] => bytes.len() <= MOST_BYTES
            && first.is_ascii_alphabetic()
            && are_name_bytes(bytes),
    }
}

ghost use Rattle.std.specs.Prelude.{◌≡◌, ◌<◌, length, IfSome};
ghost use Rattle.out_update.specs.Names.{name_fault, first_bad};

/// The place of the first byte that a name can't have there.
pub fn name_byte(bytes: &[u8]) -> Option<usize>
    ensures value { result ≡ name_fault bytes.now }
    ensures below { IfSome result (λ i. i < length bytes.now) }
{
    match bytes {
        [b'.'] | [b'.', b'.'] => Some(0),
        _ => bad_byte(bytes),
    }
}

fn bad_byte(bytes: &[u8]) -> Option<usize>
    ensures value { result ≡ first_bad bytes.now }
    ensures below { IfSome result (λ i. i < length bytes.now) }
{
    for (i, byte) in bytes.iter().enumerate() {
        if *byte == 0 || *byte == b'/' {
            return Some(i);
        }
    }
    None
}

// The back end of a name.
ghost use Rattle.std.specs.Prelude.{◌≡◌, ◌+◌, ◌<◌, ◌≤◌, find, IfSome};
ghost use Rattle.std.specs.List.{range_with_len};
ghost use Rattle.std.specs.Str.{bytes_eq};
ghost use Rattle.hb_model.specs.Names.{back_end_name, back_end_named as named};

fn is_back_end(number: u8, name: &[u8]) -> bool
    requires { number ≤ 9 }
    ensures { result ≡ bytes_eq (back_end_name number) name.now }
{
    [b'b', b'e', b's', b'0' + number].as_slice() == name
}

// The back end of this name, from the first on, of so many.
fn named_from(first: u8, count: u8, name: &[u8]) -> Option<u8>
    requires { first + count ≤ 9 }
    ensures named { result ≡ find (λ i. bytes_eq (back_end_name i) name.now) (range_with_len first count) }
    ensures within { IfSome result (λ i. (first ≤ i) × (i < first + count)) }
{
    if count == 0 {
        return None;
    }
    if is_back_end(first, name) {
        return Some(first);
    }
    named_from(first + 1, count - 1, name)
}

/// The number of the back end of this name, of so many.
pub fn back_end_named(back_ends: u8, name: &[u8]) -> Option<u8>
    requires { back_ends ≤ 8 }
    ensures named { result ≡ named back_ends name.now }
    ensures within { IfSome result (λ i. (1 ≤ i) × (i ≤ back_ends)) }
{
    named_from(1, back_ends, name)
}

// Parts of bytes.
ghost use Rattle.std.specs.Prelude.{◌≡◌, ◌≤◌, ◌<◌, ◌∷◌, nat_eq, option_map, slice_get, length, IfSome};
ghost use Rattle.std.specs.List.{position_or_len};
ghost use Rattle.explanations.specs.Cuts.{parts, parts_to_come};

// How many bytes stand in front of the first separator, or of the end.
fn part_len(bytes: &[u8], separator: u8) -> usize
    ensures size { result ≡ position_or_len (λ b. nat_eq b separator) bytes.now }
    ensures within { result ≤ length bytes.now }
{
    bytes.iter().take_while(|b| **b != separator).count()
}

/// The first part of bytes, and what stands behind its separator, if one does. It takes time linear in the part.
pub fn cut(bytes: &[u8], separator: u8) -> (&[u8], Option<&[u8]>)
    ensures parts { parts separator bytes.now ≡ result.0.now ∷ parts_to_come separator result.1 }
    ensures shorter { IfSome result.1 (λ rest. length rest.now < length bytes.now) }
{
    let len = part_len(bytes, separator);
    if len == bytes.len() {
        return (bytes, None);
    }
    let (part, behind) = bytes.split_at(len);
    (part, Some(behind.split_at(1).1))
}

/// The part at this place, counted from 0, or none where there are fewer. It takes time linear in the bytes.
pub fn part_at(bytes: &[u8], separator: u8, place: u64) -> Option<&[u8]>
    ensures { option_map (λ p. p.now) result ≡ slice_get (parts separator bytes.now) place }
{
    let mut rest = Some(bytes);
    for passed in 0..place {
        let Some(left) = rest else {
            return None;
        };
        rest = cut(left, separator).1;
    }
    match rest {
        Some(left) => Some(cut(left, separator).0),
        None => None,
    }
}

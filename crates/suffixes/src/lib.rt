// Tests on lent bytes: when a slice equals, ends in, or has within it a fixed byte string. Identifiers and the mark of a scene are told so.
#![tactic(auto)]

ghost use Rattle.std.specs.Prelude.{◌≡◌};
ghost use Rattle.suffixes.specs.Bytes.{equal, ends_with, has_within};

#[tactic(auto, using(crate::proofs::Bytes::same_bytes))]
pub fn equals(a: &[u8], b: &[u8]) -> bool
    ensures { result ≡ equal a.now b.now }
{
    a == b
}

#[tactic(auto, using(crate::proofs::Bytes::ends_by))]
pub fn ends_with(id: &[u8], suffix: &[u8]) -> bool
    ensures { result ≡ ends_with id.now suffix.now }
{
    id.ends_with(suffix)
}

pub fn contains(id: &[u8], part: &[u8]) -> bool
    ensures { result ≡ has_within id.now part.now }
{
    if id.len() < part.len() {
        return false;
    }
    for k in 0..=id.len() - part.len() {
        if id[k..].starts_with(part) {
            return true;
        }
    }
    false
}

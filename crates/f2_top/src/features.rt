// The list of features with which an image is made.
ghost use Rattle.std.specs.Prelude.{◌≡◌, ◌<◌, None, IfSome, length};
ghost use Rattle.std.specs.List.{position_or_len, before_first, after_first};
ghost use Rattle.f2_top.specs.Features.{feature_of, features_of, is_comma};

// The bit of a feature.
fn feature(name: &str) -> Option<u32>
    ensures { result ≡ feature_of name.now }
{
    if name == "lost_found" {
        Some(0x200)
    } else if name == "sb_checksum" {
        Some(0x800)
    } else {
        None
    }
}

// What stands before the first comma, and what stands behind it.
fn cut(text: &str) -> Option<(&str, &str)>
    ensures none { result ≡ None → position_or_len is_comma text.now ≡ length text.now }
    ensures some { IfSome result (λ p. (position_or_len is_comma text.now < length text.now)
        × (p.0.now ≡ before_first is_comma text.now) × (p.1.now ≡ after_first is_comma text.now)) }
{
    text.split_once(',')
}

/// The bits of the names that a text lists, with a comma between each two.
pub fn features(text: &str) -> Option<u32>
    ensures { result ≡ features_of text.now }
{
    let mut bits = 0;
    let mut rest = text;
    while let Some((name, more)) = cut(rest) {
        bits |= feature(name)?;
        rest = more;
    }
    Some(bits | feature(rest)?)
}

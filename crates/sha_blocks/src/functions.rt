// What both ways of taking a block share (FIPS 180-4, sections 4.1.2, 5.2.1 and 6.2.2).

ghost use Rattle.std.specs.Prelude.{◌≡◌, ◌<◌, ◌*◌};
ghost use Rattle.sha2.specs.Sha256;

/// A round, with the sum of its constant and its word (FIPS 180-4, sections 6.2.2 and 6.4.2). `$add` adds two words of
/// either width, or those in lanes; `choice`, `majority`, `big_sigma0` and `big_sigma1` are the caller's.
#[macro_export]
macro_rules! one_round {
    ($add:path, $v:ident, $keyed:ident) => {{
        let [a, b, c, d, e, f, g, h] = $v;
        let rest = $add($add($keyed, h), choice(e, f, g));
        let sigma = big_sigma1(e);
        let t2 = $add(big_sigma0(a), majority(a, b, c));
        [
            $add($add(rest, sigma), t2),
            a,
            b,
            c,
            $add($add(rest, d), sigma),
            e,
            f,
            g,
        ]
    }};
}

/// The sums of eight words and eight others, each by `$add`.
#[macro_export]
macro_rules! added {
    ($add:path, $h:ident, $v:ident) => {
        [
            $add($h[0], $v[0]),
            $add($h[1], $v[1]),
            $add($h[2], $v[2]),
            $add($h[3], $v[3]),
            $add($h[4], $v[4]),
            $add($h[5], $v[5]),
            $add($h[6], $v[6]),
            $add($h[7], $v[7]),
        ]
    };
}

/// Ch, with one operation fewer.
#[inline(always)]
pub(crate) fn choice(x: u32, y: u32, z: u32) -> u32
    ensures { result ≡ Sha256.ch x y z }
{
    z ^ (x & (y ^ z))
}

/// Maj: the `x ^ y` of a round is the `y ^ z` of the next, so it is computed once.
#[inline(always)]
pub(crate) fn majority(x: u32, y: u32, z: u32) -> u32
    ensures { result ≡ Sha256.maj x y z }
{
    y ^ ((x ^ y) & (y ^ z))
}

/// The sums of eight words and eight others.
#[inline(always)]
pub(crate) fn sums(h: [u32; 8], v: [u32; 8]) -> [u32; 8]
    ensures { result ≡ Sha256.add_state h v }
{
    added!(u32::wrapping_add, h, v)
}

/// A word of a block.
#[inline(always)]
pub(crate) fn word(block: &[u8; 64], t: usize) -> u32
    requires { t < 16 }
    ensures { result ≡ Sha256.word_at block.now (4 * t) }
{
    let i = 4 * t;
    u32::from_be_bytes([block[i], block[i + 1], block[i + 2], block[i + 3]])
}

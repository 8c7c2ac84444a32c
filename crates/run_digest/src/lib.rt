// How the long runs write bytes down (second/PROTOCOL.md): their digest.
#![tactic(auto)]

ghost use Rattle.std.specs.Prelude.{◌≡◌};
ghost use Rattle.run_digest.specs.Internal.Digest.{one_more, digest_of};

// The digest d with one byte more. Taken modulo 4,294,967,291 first, it can't pass 64 bits.
fn with_byte(d: u64, b: u8) -> u64
    ensures { result ≡ one_more d b }
{
    let low = d % 4_294_967_291;
    (low * 31 + b as u64 + 1) % 4_294_967_291
}

// The digest d with these bytes more.
pub fn with_bytes(d: u64, bytes: &[u8]) -> u64
    ensures { result ≡ digest_of d bytes.now }
{
    bytes.iter().fold(d, |digest, b| with_byte(digest, *b))
}

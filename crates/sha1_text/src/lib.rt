// A digest as text.
#![tactic(auto)]

ghost use Rattle.std.specs.Prelude.{◌≡◌};
ghost use Rattle.sha1_text.specs.Text.{hex_of};

// The forty hexadecimal digits of a digest; forty is twice twenty, so they are always written.
pub fn hex(digest: [u8; 20]) -> [u8; 40]
    ensures { result ≡ hex_of digest }
{
    let mut out = [0u8; 40];
    let _ = hex::encode_to_slice(digest, &mut out);
    out
}

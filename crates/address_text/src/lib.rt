// The call that writes the text of an address to a lent buffer.
#![tactic(auto)]

ghost use Rattle.std.specs.Prelude.{◌≡◌, length};
ghost use Rattle.octets.specs.Positions.{Wide};
ghost use Rattle.ip_text.specs.Text.{text_of};
ghost use Rattle.address_text.specs.Call.{written_of, text_after};

use ip_text::put_text;
use output::WriteError;

// How many bytes the text has: it is written to a buffer that every text fits into.
fn size_of(address: &[u8]) -> usize
    requires { Wide (length address.now) }
    ensures { result ≡ length (text_of address.now) }
{
    let mut spare = [0u8; 39];
    put_text(address, &mut spare)
}

// The text of an address of four bytes or sixteen. Its bytes are counted only where there is less room than the family may need.
fn write(address: &[u8], text: &mut [u8]) -> Result<u32, WriteError>
    requires { Wide (length address.now) }
    ensures numbers { result ≡ written_of address.now (length text.old) }
    ensures text { text.new ≡ text_after address.now text.old }
{
    let most = if address.len() == 4 { 15 } else { 39 };
    if text.len() < most {
        let size = size_of(address);
        if text.len() < size {
            return Err(WriteError::NoRoom(size as u32));
        }
    }
    Ok(put_text(address, text) as u32)
}

// Writes the text of an address to the front of the buffer, if it has room for it.
pub fn address_text(address: &[u8], text: &mut [u8]) -> Result<u32, WriteError>
    ensures numbers { result ≡ written_of address.now (length text.old) }
    ensures text { text.new ≡ text_after address.now text.old }
{
    match address.len() {
        4 => write(address, text),
        16 => write(address, text),
        _ => Err(WriteError::Malformed),
    }
}

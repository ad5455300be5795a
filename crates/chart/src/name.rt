// A chart's name as the value of a line.
ghost use Rattle.std.specs.Prelude.{◌≡◌, ℕ, List, Some, encode_utf8_all};
ghost use Rattle.std.specs.List.{list_all};
ghost use Rattle.fixed.specs.Items.{items};
ghost use Rattle.chart.specs.Kinds.{is_name_byte, name_of};

use super::drawing::{MOST_NAME_BYTES, Name};
use fixed::array_vec::ArrayVec;
use format::fault::ElementFault;
use format::value::Value;
use std::fmt;

// Whether the character may stand in a name.
fn is_name_char(byte: u8) -> bool
    ensures { result ≡ is_name_byte byte }
{
    matches!(char::from(byte), 'a'..='z' | '0'..='9' | '_')
}

// Whether the bytes may all stand in a name.
fn is_plain(bytes: &[u8]) -> bool
    ensures { result ≡ list_all is_name_byte bytes.now }
{
    bytes.iter().all(|byte| is_name_char(*byte))
}

impl Value for Name {
    ghost Said = { List ℕ };

    ghost said = { λ n. items n.bytes };

    ghost reads = { λ _ v. name_of v };

    // A name has 1 to 16 bytes; how many there are is a matter of its form.
    fn read(_limit: u8, value: &[u8]) -> Result<Self, ElementFault> {
        if 1 <= value.len() && value.len() <= MOST_NAME_BYTES && is_plain(value) {
            let mut bytes = ArrayVec::new(b'_');
            bytes.extend_from_slice(value);
            Ok(Name { bytes })
        } else {
            Err(ElementFault::Form { element: 0 })
        }
    }
}

// The name as text: each byte is a character.
impl fmt::Display for Name {
    ghost output = { λ n. Some (encode_utf8_all (items n.bytes)) };

    fn fmt<W: fmt::Write>(&self, f: &mut fmt::Formatter<W>) -> fmt::Result {
        let bytes = self.bytes.as_slice();
        for byte in bytes {
            f.write_char(char::from(*byte))?;
        }
        Ok(())
    }
}

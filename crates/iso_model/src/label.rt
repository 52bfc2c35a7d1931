// Names for transactions that no client has.
ghost use Rattle.std.specs.{Prelude.{◌≡◌, List, ℕ, IsTrue}, List.list_all};
ghost use Rattle.iso_model.specs.Labels.{is_label, is_label_byte, key_of, label_of};

use std::marker::Model;

/// A name for a released transaction: 1 to 16 bytes from a-z and 0-9. Contracts see its text.
#[derive(Debug, Drop)]
pub struct Label {
    len: u8,
    bytes: [u8; 16],
}

impl Model for Label {
    ghost use Rattle.std.specs.Prelude.{ℕ, List, ◌≤◌, IsTrue, take};
    ghost use Rattle.iso_model.specs.Labels.{is_label};

    ghost Value = { List ℕ };

    ghost view = { λ a. take a.len a.bytes };

    ghost invariant = { λ a. (a.len ≤ 16) × IsTrue (is_label (take a.len a.bytes)) };
}

impl Label {
    /// The label of this text, and none exactly where it is no label. It takes no memory.
    pub fn new(text: &[u8]) -> Option<Label>
        ensures { result ≡ label_of text.now }
    {
        if !is_label(text) {
            return None;
        }
        let mut bytes = [0; 16];
        bytes[..text.len()].copy_from_slice(text);
        Some(Label {
            len: text.len() as u8,
            bytes,
        })
    }

    /// A copy of the label.
    pub fn copy(&self) -> Label
        ensures { result ≡ self.now }
    {
        Label {
            len: self.len,
            bytes: self.bytes,
        }
    }

    /// The text of the label.
    pub fn text(&self) -> &[u8]
        ensures { result.now ≡ self.now }
    {
        &self.bytes[..self.len as usize]
    }

    /// A number that no other label has.
    pub fn key(&self) -> u128
        ensures key { result ≡ key_of self.now }
        ensures label { IsTrue (is_label self.now) }
        ensures apart { (other : List ℕ) → IsTrue (is_label other) → key_of other ≡ result → other ≡ self.now }
    {
        let text = &self.bytes[..self.len as usize];
        let mut key: u128 = 0;
        let mut at = text.len();
        while at > 0 {
            at -= 1;
            key = key * 256 + u128::from(text[at]);
        }
        key
    }
}

fn is_label(text: &[u8]) -> bool
    ensures { result ≡ is_label text.now }
{
    !text.is_empty() && text.len() <= 16 && are_label_bytes(text)
}

fn are_label_bytes(text: &[u8]) -> bool
    ensures { result ≡ list_all is_label_byte text.now }
{
    text.iter().all(|byte| is_label_byte(*byte))
}

fn is_label_byte(byte: u8) -> bool
    ensures { result ≡ is_label_byte byte }
{
    (b'0'..=b'9').contains(&byte) || (b'a'..=b'z').contains(&byte)
}

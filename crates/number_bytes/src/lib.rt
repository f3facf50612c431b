// A byte of the input: the item of which all others are made. The answer is that of any place, past the end too.
#![tactic(auto)]

ghost use Rattle.number_bytes.specs.Bytes.{ByteAt};

pub fn byte_at(s: &[u8], at: usize) -> Option<u64>
    ensures { ByteAt s.now at result }
{
    if at < s.len() {
        Some(s[at] as u64)
    } else {
        None
    }
}

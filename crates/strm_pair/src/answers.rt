//! Answers with their bytes in buffers of their own.

ghost use Rattle.std.specs.Prelude.{◌≡◌, ◌≤◌, length, take};
ghost use Rattle.strm_types.specs.Events.{map_answer};
ghost use Rattle.strm_types.specs.Journal.{answer_len, reply_in};
ghost use Rattle.strm_pair.specs.Parts.{longest_part};

use strm_types::{Answer, READ_MAX, ReadBytes};

// So many bytes of the front, in a buffer of their own, which has room for 4096.
fn owned(len: u32, bytes: &[u8]) -> ReadBytes
    ensures { len ≤ 4096 → result.items ≡ take len bytes.now }
{
    let mut owned = ReadBytes::new();
    owned
        .try_extend_from_slice(&bytes[..(len as usize).min(bytes.len()).min(READ_MAX)])
        .unwrap();
    owned
}

/// An answer with its bytes, which stand in front of others, those of a control part first. The cost is a copy of each byte.
pub(crate) fn own(answer: Answer<u32>, bytes: &[u8]) -> Answer<ReadBytes>
    requires has { answer_len answer ≤ length bytes.now }
    requires room { longest_part answer ≤ 4096 }
    ensures { map_answer (λ owned. owned.items) result ≡ reply_in answer bytes.now }
{
    match answer {
        Answer::Msg {
            prio,
            control,
            body,
            more_control,
            more_data,
        } => {
            let behind = &bytes[control.unwrap_or(0) as usize..];
            Answer::Msg {
                prio,
                control: control.map(|len| owned(len, bytes)),
                body: body.map(|len| owned(len, behind)),
                more_control,
                more_data,
            }
        }
        _ => answer.map(|len| owned(*len, bytes)),
    }
}

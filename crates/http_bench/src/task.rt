//! The words of the command line, and what is to be done.
use nc_types::text::read_decimal;

/// What is to be done.
#[derive(Clone, Copy)]
pub enum Task {
    Read {
        body: u64,
        requests: u64,
        piece: u64,
        times: u64,
    },
    Answer {
        body: u64,
        times: u64,
    },
    Keep {
        chunks: u64,
        readers: u64,
    },
}

fn number(word: &String) -> Option<u64> {
    read_decimal(word.as_bytes(), 1_000_000_000)
}

/// The task that the words are, if they are one.
pub fn read_task(words: &[String]) -> Option<Task> {
    match words {
        [task, body, requests, piece, times] => {
            if task.as_bytes() != b"read".as_slice() {
                return None;
            }
            Some(Task::Read {
                body: number(body)?,
                requests: number(requests)?,
                piece: number(piece)?,
                times: number(times)?,
            })
        }
        [task, first, second] => {
            let first = number(first)?;
            let second = number(second)?;
            match task.as_bytes() {
                b"answer" => Some(Task::Answer {
                    body: first,
                    times: second,
                }),
                b"keep" => Some(Task::Keep {
                    chunks: first,
                    readers: second,
                }),
                _ => None,
            }
        }
        _ => None,
    }
}

use super::Same;
use crate::ask::{Answer, Question};
use crate::entry::{Entry, Receipt};

impl Same for Question {
    fn same(&self, other: &Question) -> bool {
        match (self, other) {
            (Question::Now, Question::Now) => true,
            (Question::Jitter, Question::Jitter) => true,
            (Question::Read { path }, Question::Read { path: other_path }) => path.same(other_path),
            (
                Question::Write { path, bytes },
                Question::Write {
                    path: other_path,
                    bytes: other_bytes,
                },
            ) => path.same(other_path) && bytes.same(other_bytes),
            (
                Question::Run { command },
                Question::Run {
                    command: other_command,
                },
            ) => command.same(other_command),
            (Question::LookUp { host }, Question::LookUp { host: other_host }) => host.same(
                other_host,
            ),
            (Question::Send(one), Question::Send(other)) => one.get().same(other.get()),
            _ => false,
        }
    }
}

impl Same for Answer {
    fn same(&self, other: &Answer) -> bool {
        match (self, other) {
            (Answer::Moment(one), Answer::Moment(other)) => one.same(other),
            (Answer::Jitter(one), Answer::Jitter(other)) => one.same(other),
            (Answer::Contents(one), Answer::Contents(other)) => one.same(other),
            (Answer::Written, Answer::Written) => true,
            (Answer::Finished(one), Answer::Finished(other)) => one.same(other),
            (Answer::Addresses(one), Answer::Addresses(other)) => one.same(other),
            (Answer::Replied(one), Answer::Replied(other)) => one.same(other),
            (Answer::Failed(one), Answer::Failed(other)) => one.same(other),
            _ => false,
        }
    }
}

impl Same for Entry {
    fn same(&self, other: &Entry) -> bool {
        self.question().same(other.question()) && self.answer().same(other.answer())
    }
}

impl Same for Receipt {
    fn same(&self, other: &Receipt) -> bool {
        self.entry().same(other.entry())
    }
}

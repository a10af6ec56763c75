//! A world and a sink that count what goes through them, each over another one.
use gv_io::{Failed, Sink};
use gv_values::{Answer, Job};
use std::alloc::AllocError;
use world::World;
use world_rules::Question;

/// A world that counts the questions, and answers as the one in it does.
#[derive(Drop)]
pub(crate) struct AskedWorld<W> {
    pub(crate) world: W,
    pub(crate) questions: u64,
}

impl<W: World + Drop> World for AskedWorld<W> {
    ghost meaning = { λ w. W.meaning w.world };

    ghost stands_for = { λ w. W.stands_for w.world };

    ghost log_is = { λ w log h. W.log_is w.world log h };

    ghost waits = { W.waits };

    fn begin(&mut self, workers: u32) -> Result<(), AllocError> {
        self.world.begin(workers)
    }

    fn post(&mut self, number: u32, job: Job, takes: u64) -> Result<(), AllocError> {
        self.world.post(number, job, takes)
    }

    fn ask(&mut self, question: Question) -> Result<Answer, AllocError> {
        self.questions = self.questions.saturating_add(1);
        self.world.ask(question)
    }

    fn may_wait(&self) -> bool {
        self.world.may_wait()
    }

    fn finish(&mut self) {
        self.world.finish()
    }
}

/// A sink that counts the bytes, and hands them to the one in it.
#[derive(Drop)]
pub(crate) struct CountedSink<K> {
    pub(crate) sink: K,
    pub(crate) bytes: u64,
}

impl<K: Sink + Drop> Sink for CountedSink<K> {
    ghost written = { λ c. K.written c.sink };

    ghost handed = { λ c. K.handed c.sink };

    ghost faults = { λ c. K.faults c.sink };

    fn write_all(&mut self, bytes: &[u8]) -> Result<(), Failed> {
        self.bytes = self.bytes.saturating_add(bytes.len() as u64);
        self.sink.write_all(bytes)
    }

    fn flush(&mut self) -> Result<(), Failed> {
        self.sink.flush()
    }
}

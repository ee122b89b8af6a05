//! Standard output as the sink.
use crate::calls::write_once;
use crate::machine::FileMachine;
use machine_model::{Failed, Sink};
use std::fs::OpenFile;
use std::io::{Read, Seek, Write};
use std::os::unix::fs::FileExt;

impl<F: FileExt + Seek + OpenFile, I: Read, O: Write> Sink for FileMachine<F, I, O> {
    ghost use Rattle.machine_files.specs.Telling.{OnlySink};
    ghost use Rattle.machine_files.specs.Laws.{OnlySink-same, OnlySink-joins};
    ghost use Rattle.machine_files.specs.Meaning.{meaning, sink_state};

    ghost sink_tells = { ⊥ };

    ghost sink = { sink_state };

    ghost only = { λ x y. OnlySink (meaning x) (meaning y) };

    ghost pushed = { λ x piece answer y. OnlySink (meaning x) (meaning y) };

    ghost only_same = { λ x. OnlySink-same (meaning x) };

    ghost only_joins = { λ x y z one two. OnlySink-joins (meaning x) (meaning y) (meaning z) one two };

    ghost only_faults = { λ x y one. one.faults };

    ghost faults_limit = { λ x. x.sink_faults.limit };

    fn push(&mut self, bytes: &[u8]) -> Result<usize, Failed> {
        match write_once(&mut self.output, bytes) {
            Ok(count) => Ok(count),
            Err(Failed) => {
                self.sink_faults.rise();
                Err(Failed)
            }
        }
    }
}

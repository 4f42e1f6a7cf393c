//! The program: it hands words, standard input and standard output to `run_command`.
//!
//! Words: main, exit code.
#![tactic(auto)]

use commands::run_command;
use std::io::ErrorKind;
use std::process::ExitCode;
use streams::Metered;

fn main(rt: HostRuntime) -> ExitCode {
    let alloc = rt.alloc();
    let words = match std::env::args(&rt) {
        Ok(args) => match args.skip(1).collect::<Vec<String>>(alloc) {
            Ok(words) => words,
            Err(_) => return report_out_of_memory_by_exit_code(&rt),
        },
        Err(error) if error.kind() == ErrorKind::OutOfMemory =>
            return report_out_of_memory_by_exit_code(&rt),
        // Words that are not text are rejected as if there were no words.
        Err(_) => Vec::new(alloc),
    };
    let mut reader = Metered::new(rt.stdin());
    let mut writer = Metered::new(rt.stdout());
    ExitCode::from(run_command(&rt, words.as_slice(), &mut reader, &mut writer))
}

fn report_out_of_memory_by_exit_code(rt: &impl Print) -> ExitCode {
    let _ = println!(rt; "memory");
    ExitCode::from(5)
}

// The words, read with clap.
ghost use Rattle.std.specs.Prelude.{◌≡◌, ◌⊎◌, true, false, map, string_bytes, Ok, Err, IfOk};
ghost use Rattle.std.specs.Prelude.{IfErr, MatchResult};
ghost use Rattle.clap.specs.Values.{kind_of};
ghost use Rattle.clap.specs.declared.error.kind.ErrorKind.TheVariants.{OutOfMemory};
ghost use Rattle.sws_words.specs.Command.{takes_words, given_by};
ghost use Rattle.sws_words.specs.Given.{given_in};
ghost use Rattle.sws_words.specs.Rules.{task_of};
ghost use Rattle.sws_words.specs.Task.{IsSound, EndsBy};

use crate::fault::{UsageFault, WordsEnd};
use crate::options::options;
use crate::rules::task_by;
use crate::task::Task;
use clap::error::ErrorKind;
use clap::{Arg, ArgMatches, Command, Error};
use std::alloc::Global;

// What clap makes of the words: it takes them, or refuses them, or memory runs out.
fn given<'a>(alloc: Global, words: &'a [String]) -> Result<ArgMatches<'a>, Error>
    ensures taken { IfOk result (λ m. takes_words (map string_bytes words.now) ≡ true) }
    ensures rows { IfOk result (λ m. given_in m ≡ given_by (map string_bytes words.now)) }
    ensures refused { IfErr result (λ e. (kind_of e ≡ OutOfMemory)
        ⊎ (takes_words (map string_bytes words.now) ≡ false)) }
{
    let mut command = Command::new(alloc, "sws")
        .no_binary_name(true)
        .disable_help_flag(true);
    for option in options() {
        let name: &'a str = option.name;
        command = command.arg(Arg::new(alloc, name).long(name))?;
    }
    command.try_get_matches_from(words)
}

/// The task that the words ask for, or the first rule that they break. The words do not begin with
/// the program's name. Want of memory may come at any words.
#[tactic(auto, unfolding(crate::specs::Rules::task_of))]
pub fn read_words(alloc: Global, words: &[String]) -> Result<Task, WordsEnd>
    ensures task { IfOk result (λ task. task_of (map string_bytes words.now) ≡ Ok task) }
    ensures fault { IfErr result (EndsBy (task_of (map string_bytes words.now))) }
    ensures sound { IfOk result IsSound }
{
    match given(alloc, words) {
        Ok(given) => Ok(task_by(&given)?),
        Err(error) if error.kind() == ErrorKind::OutOfMemory => Err(WordsEnd::OutOfMemory),
        Err(_) => Err(WordsEnd::Usage(UsageFault::Words)),
    }
}

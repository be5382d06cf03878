//! What the words of a command line ask for.

ghost use Rattle.std.specs.Prelude.{◌≡◌, ◌≤◌, [], ◌∷◌, ◌++◌, IfSome, true, option_map};
ghost use Rattle.signal_cli.specs.Commands.{budget_in, command_of, form_of, generated_in, inputs_of, outputs_of};
ghost use Rattle.signal_cli.specs.Commands as said;
ghost use Rattle.signal_cli.specs.inner.CommandViews.{HasNumber, view_of};

use shelf_io::{Text, Words};
use texts::natural;

/// The most digits of a budget.
const BUDGET_DIGITS: usize = 10;

/// The most digits of the number of a generated network.
const GENERATED_DIGITS: usize = 4;

/// A command with the names of its files.
#[derive(Clone, Copy)]
pub enum Command<'a> {
    /// The delay of a network under a plan, and the units that are left in it. One without signals needs no plan.
    Replay {
        network: &'a str,
        plan: Option<&'a str>,
    },
    /// The table of a network's replay under a plan, written to a file.
    Trace {
        network: &'a str,
        plan: &'a str,
        table: &'a str,
    },
    /// The text of the program in whole numbers of a network, written to a file.
    Program {
        network: &'a str,
        text: &'a str,
    },
    /// The text of the point of a plan, written to a file.
    Encode {
        network: &'a str,
        plan: &'a str,
        text: &'a str,
    },
    /// The plan whose point a list of values is.
    Point {
        network: &'a str,
        point: &'a str,
    },
    /// Whether a certificate shows its bound for a network.
    Check {
        network: &'a str,
        certificate: &'a str,
    },
    /// How far the delay of a plan is above the bound of a certificate.
    Gap {
        network: &'a str,
        plan: &'a str,
        certificate: &'a str,
    },
    /// A plan and a certificate, found by a search of at most so many nodes and written to two files.
    Solve {
        network: &'a str,
        budget: u32,
        plan: &'a str,
        certificate: &'a str,
    },
    /// What a search finds for a generated network: nothing is read, and nothing is written but to the output.
    Demo {
        number: u16,
    },
}

/// The command that the words ask for, or none where they are of no form.
pub fn parse(words: &Words) -> Option<Command<'_>>
    ensures value { option_map view_of result ≡ command_of words.now }
    ensures names { IfSome result (λ command. said.are_names (inputs_of (view_of command) ++ outputs_of (view_of command)) ≡ true) }
    ensures number { IfSome result HasNumber }
{
    let command = form(words.as_slice())?;
    if has_names(&command) {
        Some(command)
    } else {
        None
    }
}

/// The command whose form the words have, whatever its files are called.
fn form(words: &[Text]) -> Option<Command<'_>>
    ensures value { option_map view_of result ≡ form_of words.now }
    ensures number { IfSome result HasNumber }
{
    match words {
        [command, network] if command.as_str() == "replay" => Some(Command::Replay {
            network: network.as_str(),
            plan: None,
        }),
        [command, number] if command.as_str() == "demo" => demonstration(number.as_str()),
        [command, network, plan] if command.as_str() == "replay" => Some(Command::Replay {
            network: network.as_str(),
            plan: Some(plan.as_str()),
        }),
        [command, network, text] if command.as_str() == "program" => Some(Command::Program {
            network: network.as_str(),
            text: text.as_str(),
        }),
        [command, network, point] if command.as_str() == "point" => Some(Command::Point {
            network: network.as_str(),
            point: point.as_str(),
        }),
        [command, network, certificate] if command.as_str() == "check" => Some(Command::Check {
            network: network.as_str(),
            certificate: certificate.as_str(),
        }),
        [command, network, plan, table] if command.as_str() == "trace" => Some(Command::Trace {
            network: network.as_str(),
            plan: plan.as_str(),
            table: table.as_str(),
        }),
        [command, network, plan, text] if command.as_str() == "encode" => Some(Command::Encode {
            network: network.as_str(),
            plan: plan.as_str(),
            text: text.as_str(),
        }),
        [command, network, plan, certificate] if command.as_str() == "gap" => Some(Command::Gap {
            network: network.as_str(),
            plan: plan.as_str(),
            certificate: certificate.as_str(),
        }),
        [command, network, budget, plan, certificate] if command.as_str() == "solve" => search(
            network.as_str(),
            budget.as_str(),
            plan.as_str(),
            certificate.as_str(),
        ),
        _ => None,
    }
}

/// The search whose words these are, if the second is a budget.
fn search<'a>(
    network: &'a str,
    budget: &str,
    plan: &'a str,
    certificate: &'a str,
) -> Option<Command<'a>>
    ensures value { option_map view_of result ≡ option_map (λ nodes. said.Solve network.now nodes plan.now certificate.now) (budget_in budget.now) }
    ensures number { IfSome result HasNumber }
{
    let budget = budget_of(budget)?;
    Some(Command::Solve {
        network,
        budget,
        plan,
        certificate,
    })
}

/// The demonstration whose word this is, if it is the number of a generated network.
fn demonstration<'a>(number: &str) -> Option<Command<'a>>
    ensures value { option_map view_of result ≡ option_map said.Demo (generated_in number.now) }
    ensures number { IfSome result HasNumber }
{
    let number = natural(number.as_bytes(), GENERATED_DIGITS)?;
    Some(Command::Demo {
        number: number as u16,
    })
}

/// The budget of nodes that a word names.
fn budget_of(word: &str) -> Option<u32>
    ensures value { result ≡ budget_in word.now }
    ensures some { IfSome result (λ nodes. 1 ≤ nodes) }
{
    let nodes = natural(word.as_bytes(), BUDGET_DIGITS)?;
    if 1 <= nodes && nodes <= u64::from(u32::MAX) {
        Some(nodes as u32)
    } else {
        None
    }
}

/// Whether none of the names of a command's files is empty, and no two are equal.
fn has_names(command: &Command<'_>) -> bool
    ensures { result ≡ said.are_names (inputs_of (view_of command.now) ++ outputs_of (view_of command.now)) }
{
    match *command {
        Command::Replay {
            network,
            plan: None,
        } => is_name(network),
        Command::Replay {
            network,
            plan: Some(plan),
        } => are_two_names(network, plan),
        Command::Trace {
            network,
            plan,
            table,
        } => are_three_names(network, plan, table),
        Command::Program { network, text } => are_two_names(network, text),
        Command::Encode {
            network,
            plan,
            text,
        } => are_three_names(network, plan, text),
        Command::Point { network, point } => are_two_names(network, point),
        Command::Check {
            network,
            certificate,
        } => are_two_names(network, certificate),
        Command::Gap {
            network,
            plan,
            certificate,
        } => are_three_names(network, plan, certificate),
        Command::Solve {
            network,
            plan,
            certificate,
            ..
        } => are_three_names(network, plan, certificate),
        Command::Demo { .. } => true,
    }
}

/// Whether a name is not empty.
fn is_name(name: &str) -> bool
    ensures { result ≡ said.are_names (name.now ∷ []) }
{
    !name.is_empty()
}

/// Whether neither of two names is empty, and they differ.
fn are_two_names(first: &str, second: &str) -> bool
    ensures { result ≡ said.are_names (first.now ∷ second.now ∷ []) }
{
    if first.is_empty() || first == second {
        return false;
    }
    is_name(second)
}

/// Whether none of three names is empty, and no two are equal.
fn are_three_names(first: &str, second: &str, third: &str) -> bool
    ensures { result ≡ said.are_names (first.now ∷ second.now ∷ third.now ∷ []) }
{
    if first.is_empty() || first == second || first == third {
        return false;
    }
    are_two_names(second, third)
}

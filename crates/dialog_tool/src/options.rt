// The options of a command.
ghost use Rattle.std.specs.Prelude.{◌≡◌, string_bytes};
ghost use Rattle.std.specs.Option.{option_map};
ghost use Rattle.dialog_tool.specs.Command as spec;
ghost use Rattle.dialog_tool.specs.Command.{texts};
ghost use Rattle.dialog_tool.specs.inside.CommandView.{values_view};

/// The words behind the options.
#[derive(Clone, Copy)]
pub struct Values<'a> {
    pub steps: Option<&'a str>,
    pub heap: Option<&'a str>,
    pub trail: Option<&'a str>,
    pub dice: Option<&'a str>,
}

// One more option with its word, where there was none before.
fn with_option<'a>(values: Values<'a>, option: &String, word: &'a str) -> Option<Values<'a>>
    ensures { option_map values_view result ≡ spec.with_option (values_view values.entry) (string_bytes option.now) word.now }
{
    match option.as_str() {
        "--steps" => match values.steps {
            None => Some(Values {
                steps: Some(word),
                ..values
            }),
            Some(_) => None,
        },
        "--heap" => match values.heap {
            None => Some(Values {
                heap: Some(word),
                ..values
            }),
            Some(_) => None,
        },
        "--trail" => match values.trail {
            None => Some(Values {
                trail: Some(word),
                ..values
            }),
            Some(_) => None,
        },
        "--dice" => match values.dice {
            None => Some(Values {
                dice: Some(word),
                ..values
            }),
            Some(_) => None,
        },
        _ => None,
    }
}

// These options and those that the words are, in any order, each followed by its word.
fn values_behind<'a>(values: Values<'a>, options: &'a [String]) -> Option<Values<'a>>
    ensures { option_map values_view result ≡ spec.values_behind (values_view values.entry) (texts options.now) }
{
    match options {
        [] => Some(values),
        [option, word, others @ ..] => match with_option(values, option, word.as_str()) {
            Some(more) => values_behind(more, others),
            None => None,
        },
        _ => None,
    }
}

/// The words of these options, each at most once.
pub fn values_of(options: &[String]) -> Option<Values<'_>>
    ensures { option_map values_view result ≡ spec.options_of (texts options.now) }
{
    let none = Values {
        steps: None,
        heap: None,
        trail: None,
        dice: None,
    };
    values_behind(none, options)
}

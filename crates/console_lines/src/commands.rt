// The commands of a line.
ghost use Rattle.std.specs.Prelude.{◌<◌, length, MatchOption};
ghost use Rattle.text.specs.Names.{words_of, Placed};
ghost use Rattle.console_lines.specs.Commands.{place_of};

use text::name::find;

// In the order of their words.
#[derive(Clone, Copy)]
pub enum Command {
    Shape,
    Matrix,
    Cells,
    Point,
    Lambda,
    Plan,
    Get,
    Stack,
    View,
    Room,
    Start,
    Fold0,
    Pair,
    Fold,
    Openings,
    Work,
    Len,
    Set,
    Challenges,
    Claims,
    First,
    Pairs,
    Opened,
    Take,
    Verdict,
    Observed,
    Show,
    Add,
    Sub,
    Mul,
    Square,
    Halve,
    ExpPowerOf2,
    EvalEqMle,
    EvalEqUni,
    EvalEqUniAtOne,
    EvalInUni,
    EvalEqPrism,
    EvalRotKernelPrism,
    EvalEqRotCube,
    EvalsEqHypercube,
    InterpolateQuadraticAt012,
    HornerEval,
    Help,
    Why,
    PlanUnsorted,
    EvalsEqHypercubeFrom,
    Round0,
    ColumnOpenings,
}

// The words that a line can have, a space between, as `help` prints them.
pub const WORDS: &[u8] = b"\
shape matrix cells point lambda plan get stack view room start fold0 pair fold openings work len set challenges claims \
first pairs opened take verdict observed show add sub mul square halve exp_power_of_2 eval_eq_mle eval_eq_uni \
eval_eq_uni_at_one eval_in_uni eval_eq_prism eval_rot_kernel_prism eval_eq_rot_cube evals_eq_hypercube \
interpolate_quadratic_at_012 horner_eval help why plan_unsorted evals_eq_hypercube_from round0 column_openings";

const COMMANDS: [Command; 49] = [
    Command::Shape,
    Command::Matrix,
    Command::Cells,
    Command::Point,
    Command::Lambda,
    Command::Plan,
    Command::Get,
    Command::Stack,
    Command::View,
    Command::Room,
    Command::Start,
    Command::Fold0,
    Command::Pair,
    Command::Fold,
    Command::Openings,
    Command::Work,
    Command::Len,
    Command::Set,
    Command::Challenges,
    Command::Claims,
    Command::First,
    Command::Pairs,
    Command::Opened,
    Command::Take,
    Command::Verdict,
    Command::Observed,
    Command::Show,
    Command::Add,
    Command::Sub,
    Command::Mul,
    Command::Square,
    Command::Halve,
    Command::ExpPowerOf2,
    Command::EvalEqMle,
    Command::EvalEqUni,
    Command::EvalEqUniAtOne,
    Command::EvalInUni,
    Command::EvalEqPrism,
    Command::EvalRotKernelPrism,
    Command::EvalEqRotCube,
    Command::EvalsEqHypercube,
    Command::InterpolateQuadraticAt012,
    Command::HornerEval,
    Command::Help,
    Command::Why,
    Command::PlanUnsorted,
    Command::EvalsEqHypercubeFrom,
    Command::Round0,
    Command::ColumnOpenings,
];

impl Command {
    // The command whose word it is.
    pub fn named(word: &[u8]) -> Option<Command>
        ensures { let words = words_of WORDS.now in MatchOption result (Placed words word.now (length words)) (λ command. (place_of command < length words) × Placed words word.now (place_of command)) }
    {
        let place = find(WORDS, word)?;
        Some(COMMANDS[place])
    }

    // How many numbers the command takes, where it is always as many.
    fn count(self) -> Option<usize> {
        match self {
            Command::Room
            | Command::Start
            | Command::Openings
            | Command::Work
            | Command::Take
            | Command::Verdict
            | Command::Observed
            | Command::Show
            | Command::Help
            | Command::Round0
            | Command::ColumnOpenings => Some(0),
            Command::Plan | Command::Stack | Command::Pair | Command::Why | Command::PlanUnsorted =>
                Some(1),
            Command::View | Command::Len => Some(2),
            Command::Get | Command::Set => Some(3),
            Command::Lambda | Command::Fold0 | Command::Square | Command::Halve => Some(4),
            Command::Fold | Command::ExpPowerOf2 | Command::EvalEqUniAtOne => Some(5),
            Command::EvalInUni => Some(6),
            Command::Add | Command::Sub | Command::Mul => Some(8),
            Command::EvalEqUni => Some(9),
            Command::InterpolateQuadraticAt012 => Some(16),
            _ => None,
        }
    }

    // Whether the command takes more numbers as well as fewer.
    pub fn takes_any(self) -> bool {
        self.count().is_none()
    }

    // Whether the command takes so many numbers.
    pub fn takes(self, n: usize) -> bool {
        match self {
            Command::EvalEqMle | Command::EvalEqRotCube => n % 8 == 0,
            Command::EvalEqPrism | Command::EvalRotKernelPrism => n % 8 == 1,
            Command::HornerEval => 0 < n && n % 4 == 0,
            Command::EvalsEqHypercubeFrom => 4 <= n,
            _ => self.count().is_none_or(|count| n == count),
        }
    }
}

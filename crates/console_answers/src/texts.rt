// What `help` and `why` say, a line each.
use console_lines::commands::Command;
use console_lines::replies::{Outcome, Refusal, Reply};

// Each command with its numbers and its answer.
fn help_of(command: Command) -> &'static [u8] {
    match command {
        Command::Shape =>
            b"shape L N K c_1 .. c_K x .. -> ok; l_skip, n_stack, K counts, then width, log height and flag of each matrix",
        Command::Matrix => b"matrix x .. -> ok; the stacked matrices",
        Command::Cells => b"cells x .. -> ok; the cells, column by column",
        Command::Point => b"point x .. -> ok; r, n_stack + 1 elements",
        Command::Lambda => b"lambda a b c d -> ok",
        Command::Plan =>
            b"plan I -> ok, stack width, H, the number of columns, and a record of 32 hexadecimal digits for each column of commitment I",
        Command::Get => b"get I M J -> ok and the record of column J of matrix M",
        Command::Stack =>
            b"stack I -> ok and the stacked matrix of the cells; the list has heights in place of log heights",
        Command::View =>
            b"view I M -> ok, where matrix M starts in the stacked matrix, and its length",
        Command::Room => b"room -> ok and the lengths of q_evals, eq_r, k_rot_r, eq_ub",
        Command::Start => b"start -> ok",
        Command::Fold0 => b"fold0 a b c d -> ok; the fold at u_0, whatever it is",
        Command::Pair => b"pair J -> ok and the values of round J at 1 and 2, eight words",
        Command::Fold => b"fold J a b c d -> ok; the fold of round J",
        Command::Openings => b"openings -> ok and an element a stack column",
        Command::Work => b"work -> ok and the words of the four work buffers",
        Command::Len => b"len B X -> ok; buffer B is handed on with X words",
        Command::Set => b"set B I X -> ok; X at word I of work buffer B",
        Command::Challenges => b"challenges x .. -> ok; u_0 to u_n_stack",
        Command::Claims => b"claims x .. -> ok; the claims in lambda order",
        Command::First =>
            b"first x .. -> ok; the first polynomial, 2^(l_skip + 1) - 1 coefficients",
        Command::Pairs => b"pairs x .. -> ok; the pairs of all rounds",
        Command::Opened => b"opened x .. -> ok; the openings, an element a stack column",
        Command::Take =>
            b"take -> ok and the number of words that challenges, pairs, opened, first and claims have from the run",
        Command::Verdict => b"verdict -> yes, or refused N, with 13 and 14 both sides",
        Command::Observed => b"observed -> ok and the slice as the last verdict left it",
        Command::Show =>
            b"show -> ok and the number of words of counts, list, matrix, cells, point, challenges, claims, first, pairs, opened",
        Command::Add => b"add A B -> ok and A + B",
        Command::Sub => b"sub A B -> ok and A - B",
        Command::Mul => b"mul A B -> ok and A times B",
        Command::Square => b"square A -> ok and A squared",
        Command::Halve => b"halve A -> ok and half of A",
        Command::ExpPowerOf2 => b"exp_power_of_2 K A -> ok and A to the power 2^K",
        Command::EvalEqMle => b"eval_eq_mle A.. B.. -> ok and the eq kernel of the cube",
        Command::EvalEqUni =>
            b"eval_eq_uni L A B -> ok and the eq kernel of the skip subgroup of order 2^L",
        Command::EvalEqUniAtOne => b"eval_eq_uni_at_one L A -> ok and the same with 1 for B",
        Command::EvalInUni => b"eval_in_uni L h A -> ok and the weight of a column of log height h",
        Command::EvalEqPrism => b"eval_eq_prism L A.. B.. -> ok and the eq kernel of the prism",
        Command::EvalRotKernelPrism =>
            b"eval_rot_kernel_prism L A.. B.. -> ok and the rotation kernel of the prism",
        Command::EvalEqRotCube =>
            b"eval_eq_rot_cube A.. B.. -> ok, eq and rotation of the cube, eight words",
        Command::EvalsEqHypercube => b"evals_eq_hypercube A.. -> ok and the eq table",
        Command::InterpolateQuadraticAt012 =>
            b"interpolate_quadratic_at_012 S0 S1 S2 A -> ok and the quadratic through S0, S1, S2 at 0, 1, 2, at A",
        Command::HornerEval =>
            b"horner_eval C.. A -> ok and the polynomial of coefficients C.. at A",
        Command::Help => b"help -> ok and the words; help WORD -> ok and this of it",
        Command::Why => b"why N -> ok and what document 01's number N says",
        Command::PlanUnsorted =>
            b"plan_unsorted I -> ok, stack width, H, the number of columns, the arrival position of each place, and a record for each column; the matrices in any order, placed the higher first, then the wider, then the earlier",
        Command::EvalsEqHypercubeFrom =>
            b"evals_eq_hypercube_from S A.. -> ok and the eq table with starting element S: each entry times S",
        Command::Round0 =>
            b"round0 -> ok and the first polynomial, 2^(l_skip + 1) - 1 coefficients",
        Command::ColumnOpenings =>
            b"column_openings -> ok and the claims in lambda order: the trace columns' openings at r",
    }
}

// help WORD
pub fn help(word: &[u8]) -> Outcome {
    let command = Command::named(word).ok_or(Refusal::Error)?;
    Ok(Reply::Text(help_of(command)))
}

// why N: the numbers of a refusal.
pub fn why(x: &[u32]) -> Outcome {
    let text: &[u8] = match x {
        [1] =>
            b"l_skip over 10, n_stack over 20, their sum over 24, over 4,096 matrices a commitment, no commitment or over 16, one after the first not of one matrix, or a flag over 1",
        [2] => b"over 4,096 columns in a commitment",
        [3] => b"a height that has not exactly one bit set",
        [4] => b"a log height over l_skip + n_stack",
        [5] => b"a column that would pass the end of its stack column",
        [6] => b"log heights that rise within a commitment",
        [7] => b"a commitment of no column",
        [8] => b"a call out of turn",
        [9] => b"a slice of another length than the one asked",
        [10] => b"a word that is not below p = 2,013,265,921",
        [11] => b"no such matrix or column, or a view of width 0",
        [12] => b"no call gives it: a u_0 in the skip subgroup is taken too",
        [13] =>
            b"the weighted claims are not the first polynomial's sum over the skip subgroup; the answer has both",
        [14] => b"the carried claim is not the final sum of the openings; the answer has both",
        _ => return Err(Refusal::Error),
    };
    Ok(Reply::Text(text))
}

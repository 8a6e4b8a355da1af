// The functions of the field: add sub mul square halve exp_power_of_2.
use console_lines::commands::Command;
use console_lines::replies::Refusal;
use field::element;

pub fn value(command: Command, x: &[u32]) -> Result<[u32; 4], Refusal> {
    match (command, x) {
        (Command::ExpPowerOf2, [k, a, b, c, d]) => Ok(element::exp_power_of_2(
            [*a, *b, *c, *d],
            *k,
        )),
        _ => of_elements(command, x.as_chunks().0),
    }
}

fn of_elements(command: Command, elements: &[[u32; 4]]) -> Result<[u32; 4], Refusal> {
    match (command, elements) {
        (Command::Add, [a, b]) => Ok(element::add(*a, *b)),
        (Command::Sub, [a, b]) => Ok(element::sub(*a, *b)),
        (Command::Mul, [a, b]) => Ok(element::mul(*a, *b)),
        (Command::Square, [a]) => Ok(element::square(*a)),
        (Command::Halve, [a]) => Ok(element::halve(*a)),
        _ => Err(Refusal::Error),
    }
}

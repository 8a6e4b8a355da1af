// A page that is lent, and the place that is reached in it.
ghost use Rattle.text.specs.Printed.{decimal_of, record_of};
ghost use Rattle.text.specs.Template.{instance_of};
ghost use Rattle.text.specs.Writing.{Put};

use crate::print::{append, append_decimal, append_record};
use crate::template;

#[derive(Drop)]
pub struct Writer<'a> {
    pub out: &'a mut [u8],
    pub at: usize,
}

impl Writer<'_> {
    pub fn put(&mut self, bytes: &[u8])
        ensures { Put self.old bytes.now self.new }
    {
        self.at = append(self.out, self.at, bytes);
    }

    pub fn put_decimal(&mut self, x: u64)
        ensures { Put self.old (decimal_of x) self.new }
    {
        self.at = append_decimal(self.out, self.at, x);
    }

    pub fn put_record(&mut self, a: u64, b: u64)
        ensures { Put self.old (record_of a b) self.new }
    {
        self.at = append_record(self.out, self.at, a, b);
    }

    // Puts a template with its numbers.
    pub fn put_template(&mut self, template: &[u8], numbers: &[u64])
        ensures { Put self.old (instance_of template.now numbers.now) self.new }
    {
        self.at = template::put(self.out, self.at, template, numbers);
    }
}

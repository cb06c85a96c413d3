// The printed lines.
ghost use Rattle.std.specs.Prelude.{◌≡◌, ◌<◌, ◌≤◌, length};
ghost use Rattle.answers.specs.Answers.{number_of, place_of};
ghost use Rattle.print.specs.Printing.{decimal, printed_polynomial};
ghost use Rattle.print.specs.Page.{Room, Prints};
ghost use Rattle.print.specs.Write.{Writes};
ghost use Rattle.lines.specs.Names.{product_name};
ghost use Rattle.lines.specs.Output.{line_of, answer_lines, product_lines};

use answers::Answer;
use print::Page;

// A line of a name and a number.
fn number_line(name: &[u8], v: usize, page: &mut Page)
    requires { (v < 100000) × Room page.old (line_of name.now (decimal v)) }
    ensures { Prints page.old (line_of name.now (decimal v)) page.new }
{
    page.put(name);
    page.put_decimal(v);
    page.put_byte(b'\n');
}

fn product_line(list: &[u16], page: &mut Page)
    requires { (length list.now ≤ 100000) × Room page.old (line_of product_name (printed_polynomial list.now)) }
    ensures { Prints page.old (line_of product_name (printed_polynomial list.now)) page.new }
{
    page.put(b"product=");
    page.put_polynomial(list);
    page.put_byte(b'\n');
}

fn lines_of_answer(answer: Answer, page: &mut Page)
    requires { (place_of answer < 100000) × Room page.old (answer_lines (number_of answer) (place_of answer)) }
    ensures { Prints page.old (answer_lines (number_of answer) (place_of answer)) page.new }
{
    number_line(b"code=", answers::number(answer), page);
    number_line(b"place=", answers::place(answer), page);
}

// The lines of an answer of 0, and of the set and the product after it.
fn lines_of_product(set: usize, list: &[u16], page: &mut Page)
    requires few_digits { (set < 100000) × (length list.now ≤ 100000) }
    requires room { Room page.old (product_lines set list.now) }
    ensures { Prints page.old (product_lines set list.now) page.new }
{
    lines_of_answer(Ok(()), page);
    number_line(b"set=", set, page);
    product_line(list, page);
}

// The two lines of an answer, at the start.
pub fn put_answer(answer: Answer, out: &mut [u8]) -> usize
    requires { (place_of answer < 100000) × (length (answer_lines (number_of answer) (place_of answer)) ≤ length out.old) }
    ensures { Writes out.old 0 (answer_lines (number_of answer) (place_of answer)) out.new result }
{
    let mut page = Page { out, at: 0 };
    lines_of_answer(answer, &mut page);
    page.at
}

// The four lines after an answer of 0.
pub fn put_lines(set: usize, list: &[u16], out: &mut [u8]) -> usize
    requires few_digits { (set < 100000) × (length list.now ≤ 100000) }
    requires room { length (product_lines set list.now) ≤ length out.old }
    ensures { Writes out.old 0 (product_lines set list.now) out.new result }
{
    let mut page = Page { out, at: 0 };
    lines_of_product(set, list, &mut page);
    page.at
}

//! Templates, and the words that they give.

ghost use Rattle.std.specs.Prelude.{◌≡◌, ◌≤◌, List, map, All};
ghost use Rattle.um_word.specs.declared.op.Op.{Op};
ghost use Rattle.code_templates.specs.Lines.{StandsAt};
ghost use Rattle.code_templates.specs.Rows.{filled, HoleFits, Say};

/// What stands in the place of a row's value.
#[derive(Clone, Copy, PartialEq, Eq, Debug)]
pub enum Hole {
    /// The row's own bits.
    Empty,
    /// The value of the hole with this number.
    Value(u8),
}

/// A row of a template: a word of the machine, whose bits 0 to 24 may be a hole.
#[derive(Clone, Copy, PartialEq, Eq, Debug)]
pub struct Row {
    pub word: u32,
    pub hole: Hole,
}

/// A table of rows: a piece of code with holes. See "Templates" in docs/COMPILED.md.
#[derive(Clone, Copy, Debug)]
pub struct Template<const N: usize> {
    pub rows: [Row; N],
}

/// The values of the holes, by their numbers. A value is below 2^25.
#[derive(Clone, Copy, Debug)]
pub struct Holes {
    pub values: [u32; 8],
}

impl<const N: usize> Template<N> {
    /// The words of the rows, in which bits 0 to 24 of each row with a hole are the hole's value.
    /// They say the operators that the rows do with these values. Takes no memory.
    pub fn fill(&self, holes: &Holes) -> [u32; N]
        requires size { N ≤ 1024 }
        requires holes { All (HoleFits holes.now.values) self.now.rows }
        ensures words { result ≡ map (filled holes.now.values) self.now.rows }
        ensures says { (ops : List Op) →
            Say self.now.rows holes.now.values ops → StandsAt result 0 ops }
    {
        let mut words = [0; N];
        for at in 0..N {
            words[at] = fill_row(&self.rows[at], holes);
        }
        words
    }
}

fn fill_row(row: &Row, holes: &Holes) -> u32
    requires { HoleFits holes.now.values row.now }
    ensures { result ≡ filled holes.now.values row.now }
{
    match row.hole {
        Hole::Empty => row.word,
        Hole::Value(number) => (row.word >> 25 << 25) + holes.values[number as usize],
    }
}

#[cfg(test)]
mod tests {
    use super::*;
    use std::test::Fail;

    /// A table of templates with their words.
    macro_rules! words {
        ($rt:ident, $holes:ident; $($template:ident: $($word:literal)* ;)*) => {
            $(assert_eq!($rt; crate::$template().fill(&$holes), [$($word),*]);)*
        };
    }

    /// 1 is in hole 0, 2 in hole 1 and so on.
    #[test]
    fn templates_give_their_words(rt: HostRuntime) -> Result<(), Fail> {
        let holes = Holes {
            values: [1, 2, 3, 4, 5, 6, 0, 0],
        };
        words! { rt, holes;
            make_cell:
                0xde00_0001 0x1000_00d7 0xde00_0002 0x1000_0117 0xde00_0004 0x8000_002f
                0xde00_0003 0x2000_017b 0xde00_0004 0x2000_017c 0xde00_0005 0x2000_00bd;
            set_slot:
                0xd600_0001 0xde00_0002 0x2000_00bb;
            choose_slot:
                0xde00_0003 0x1000_00d7 0xde00_0002 0x1000_0117 0xde00_0001 0x1000_0157
                0x0000_00e5 0xde00_0004 0x2000_00bb;
            read_part:
                0xde00_0001 0x1000_00d7 0xde00_0002 0x1000_00df 0xde00_0003 0x2000_00bb;
            branch_on_slot:
                0xde00_0001 0x1000_0117 0xda00_0002 0xdc00_0003 0x0000_0174 0xc000_0005;
            call_block:
                0xde00_0001 0x1000_00d7 0xde00_0002 0x1000_0117 0xde00_0003 0x1000_014f
                0xde00_0004 0x8000_0037 0x2000_0182 0x0000_00b6 0xde00_0001 0xdc00_0005
                0x2000_00be 0xde00_0002 0xdc00_0006 0x2000_00be 0xde00_0003 0x2000_00bb
                0xde00_0004 0x2000_00bc 0xc000_0028;
            take_outcome:
                0xde00_0001 0x2000_00bb 0xde00_0002 0x2000_00bc;
            return_outcome:
                0xde00_0005 0x1000_00d7 0xde00_0006 0x1000_0117 0xde00_0001 0x1000_0157
                0x1000_014d 0xde00_0002 0x1000_0197 0x1000_0090 0xc000_002e;
            start_text:
                0xda00_0002 0xdc00_0001 0x0000_0173 0x0000_00a4 0x0000_009b 0xc000_0005;
            write_byte:
                0xde00_0001 0xa000_0007;
            push_work:
                0xde00_0003 0x8000_0027 0xde00_0001 0x2000_0107 0xde00_0001 0x2000_013a
                0xde00_0002 0x2000_013b 0x0000_00e4;
            pop_work:
                0x1000_0158 0xde00_0001 0x1000_009f 0xde00_0002 0x1000_00df 0xc000_0005;
            go_to_part:
                0xde00_0001 0x1000_0097 0xde00_0002 0xc000_0007;
            go_to_text:
                0x1000_0150 0xde00_0001 0x3000_016f 0x1000_0145 0xc000_0005;
            halt:
                0x7000_0000;
            make_table:
                0xde00_0001 0x8000_000f;
            copy_block:
                0xd600_0001 0x8000_0023 0x6000_01c0 0x3000_00df 0xda00_0003 0x3000_016b
                0x1000_0145 0x2000_011d 0xda00_0005 0xdc00_0004 0x0000_0173 0xc000_0005
                0xda00_0002 0x2000_006c;
        }
        Ok(())
    }
}

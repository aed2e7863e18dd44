// The rows of a table.
use crate::rows::Player;
use crate::runs::Program;
use crate::tallies::Tally;
use row_texts::{Fault, Head, Line, Loops, first_word, lines_of};
use std::alloc::Global;

// A row, not yet read.
#[derive(Drop)]
struct Row {
    name: String,
    lines: Vec<Line>,
}

// A table whose rows are played.
#[derive(Clone, Copy)]
struct Title<'a> {
    alloc: Global,
    /// What tells of the table.
    name: &'a str,
}

// What is wrong in a file of lines that tables share.
pub(crate) fn read_shared(alloc: Global, name: &str, text: &str) -> Result<Tally, Fault> {
    let mut tally = Tally::new(alloc);
    read_head(alloc, name, text, &mut tally)?;
    Ok(tally)
}

// What stands in a file of lines that tables share.
fn read_head(alloc: Global, name: &str, text: &str, tally: &mut Tally) -> Result<Head, Fault> {
    let mut head = Head::new(alloc);
    for line in lines_of(alloc, text)? {
        let taken = head.take(alloc, &line.text);
        tally.take(name, &line, taken)?;
    }
    Ok(head)
}

// Plays the rows of a table, behind the lines that tables share.
pub(crate) fn play_table<P: Program>(
    alloc: Global,
    shared: &str,
    name: &str,
    text: &str,
) -> Result<Tally, Fault> {
    let mut tally = Tally::new(alloc);
    Title { alloc, name }.play::<P>(shared, text, &mut tally)?;
    if tally.runs() == 0 {
        tally.tell(name, "there is no row")?;
    }
    Ok(tally)
}

// Adds a line to rows, and gives it back where it stands before the first.
fn add_line(alloc: Global, rows: &mut Vec<Row>, line: Line) -> Result<Option<Line>, Fault> {
    let (word, title) = first_word(&line.text);
    if word == "row" {
        let name = String::from_str(alloc, title)?;
        let lines = Vec::new(alloc);
        rows.push(Row { name, lines })?;
        return Ok(None);
    }
    let Some(row) = rows.last_mut() else {
        return Ok(Some(line));
    };
    row.lines.push(line)?;
    Ok(None)
}

impl Title<'_> {
    // Plays the rows of a table, behind the lines that tables share.
    fn play<P: Program>(self, shared: &str, text: &str, tally: &mut Tally) -> Result<(), Fault> {
        let mut head = read_head(self.alloc, self.name, shared, &mut Tally::new(self.alloc))?;
        let rows = self.read_rows(text, &mut head, tally)?;
        self.play_rows::<P>(&head, &rows, tally)
    }

    // Plays rows.
    fn play_rows<P: Program>(
        self,
        head: &Head,
        rows: &[Row],
        tally: &mut Tally,
    ) -> Result<(), Fault> {
        for row in rows {
            self.play_row::<P>(head, row, tally)?;
        }
        Ok(())
    }

    // The rows of a table; what stands before them is added to a head.
    fn read_rows(self, text: &str, head: &mut Head, tally: &mut Tally) -> Result<Vec<Row>, Fault> {
        let mut rows = Vec::new(self.alloc);
        for line in lines_of(self.alloc, text)? {
            if let Some(line) = add_line(self.alloc, &mut rows, line)? {
                self.take_head(&line, head, tally)?;
            }
        }
        Ok(rows)
    }

    // Adds a line that stands before the rows to a head.
    fn take_head(self, line: &Line, head: &mut Head, tally: &mut Tally) -> Result<(), Fault> {
        let taken = head.take(self.alloc, &line.text);
        tally.take(self.name, line, taken)?;
        Ok(())
    }

    // Plays a row for each combination of its values, up to the first of which a line cannot be
    // read.
    fn play_row<P: Program>(self, head: &Head, row: &Row, tally: &mut Tally) -> Result<(), Fault> {
        let mut loops = Loops::new(self.alloc);
        if self.read_loops(head, row, &mut loops, tally)? {
            return self.play_combinations::<P>(head, row, &loops, tally);
        }
        Ok(())
    }

    // Plays a row for each combination of these values.
    fn play_combinations<P: Program>(
        self,
        head: &Head,
        row: &Row,
        loops: &Loops,
        tally: &mut Tally,
    ) -> Result<(), Fault> {
        let count = loops.count().unwrap_or(0);
        if count == 0 {
            return self.tell(row, "there are no values", tally);
        }
        for number in 0..count {
            if !self.play_combination::<P>(head, row, (loops, number), tally)? {
                return Ok(());
            }
        }
        Ok(())
    }

    // Reads the lines `for` of a row; no where one cannot be read.
    fn read_loops(
        self,
        head: &Head,
        row: &Row,
        loops: &mut Loops,
        tally: &mut Tally,
    ) -> Result<bool, Fault> {
        for line in &row.lines {
            match loops.take(self.alloc, head, &line.text) {
                Ok(true) => {}
                Ok(false) => return Ok(true),
                Err(fault) => return tally.take(self.name, line, Err(fault)),
            }
        }
        Ok(true)
    }

    // Plays a row for the combination of this number; no where a line cannot be read.
    fn play_combination<P: Program>(
        self,
        head: &Head,
        row: &Row,
        combination: (&Loops, usize),
        tally: &mut Tally,
    ) -> Result<bool, Fault> {
        let (loops, number) = combination;
        let mut names = head.names.copy(self.alloc)?;
        let Some(values) = if_read(loops.pick(self.alloc, number, &mut names))? else {
            return self.tell_unread(row, tally);
        };
        let player = Player::new(self.alloc, names, self.label(row, &values)?);
        let lines = row.lines.get(loops.lines()..).unwrap_or_default();
        self.play_lines::<P>(player, lines, tally)
    }

    // What tells of a row with these values.
    fn label(self, row: &Row, values: &str) -> Result<String, Fault> {
        let (table, name) = (self.name, &row.name);
        Ok(format!(in self.alloc; "{table}: {name}{values}")?)
    }

    // Tells that a value of a row cannot be read; no.
    fn tell_unread(self, row: &Row, tally: &mut Tally) -> Result<bool, Fault> {
        self.tell(row, "a value cannot be read", tally)?;
        Ok(false)
    }

    // Plays the lines of a row; no where one cannot be read.
    fn play_lines<P: Program>(
        self,
        player: Player,
        lines: &[Line],
        tally: &mut Tally,
    ) -> Result<bool, Fault> {
        let mut player = player;
        for line in lines {
            if !self.play_line::<P>(&mut player, line, tally)? {
                return Ok(false);
            }
        }
        player.end::<P>(tally)?;
        Ok(true)
    }

    // Plays a line of a row; no where it cannot be read.
    fn play_line<P: Program>(
        self,
        player: &mut Player,
        line: &Line,
        tally: &mut Tally,
    ) -> Result<bool, Fault> {
        let taken = player.take::<P>(&line.text, tally);
        tally.take(self.name, line, taken)
    }

    // Tells what is wrong with a row.
    fn tell(self, row: &Row, what: &str, tally: &mut Tally) -> Result<(), Fault> {
        let label = self.label(row, "")?;
        tally.tell(&label, what)
    }
}

// What was read, or none where it could not be.
fn if_read<T: Drop>(read: Result<T, Fault>) -> Result<Option<T>, Fault> {
    match read {
        Ok(read) => Ok(Some(read)),
        Err(Fault::Unread) => Ok(None),
        Err(Fault::NoMemory) => Err(Fault::NoMemory),
    }
}

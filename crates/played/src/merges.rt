// Runs through turns and merges of the lanes with K = 1, 2 and 60, on words that hold the pattern, and those from 512 + 64 * l on keep it. When the
// active lane is full, a Mark makes a turn: the lane becomes the younger one, and each Mark carries two rows, the older lane's first, until the merge
// is done. The 16th Mark of a run makes its first turn.
ghost use Rattle.std.specs.Prelude.{◌*◌, ◌<◌, ◌^◌};

use crate::board::Board;
use std::io;

// K = 1, where no mark is active at a turn: a Mark would be refused.
const ONE_MARK: [&str; 2] = [
    // The 16th Mark and the 33rd make turns; in their merges an equal value leaves the earlier place, a lower one takes over, and there are refusals 8 to 11.
    "14*5 V9 M V3 V4 V3 Q15 C15 \
     M Q18 V3 Q18 M V2 Q18 C18 Q18 Q15 M M C20 M \
     15*5 V8 M Q36 V+ Q36 V8 M Q36 C36 C36 M M C38 M Q1",
    // Turns by the 50th Mark and the 67th.
    "15*5 V- M Q54 V- Q54 C54 V4 M Q56 V3 Q56 M C56 \
     24*5 V7 M V6 V6 Q82 C82 Q82",
];

// K = 2.
const TWO_MARKS: [&str; 6] = [
    // The mark at 1 lives through the turns of the 16th Mark, the 35th and the 54th. A lower value comes in each merge, an equal one leaves the earlier place, and there are refusals 8 to 11.
    "V9 M 13*8 V9 M Q1 Q15 C15 V9 M Q1 Q16 V8 Q1 Q16 M V7 M Q1 Q16 \
     V7 Q1 Q16 Q15 C15 C16 M M C19 M \
     17*8 Q1 V9 M Q1 Q37 V6 Q1 Q37 V6 Q1 M C37 M M C39 M",
    // It is closed after it was carried and before the third merge ends, and stays closed.
    "17*8 Q1 V9 M Q1 Q57 V5 V5 Q1 Q57 C1 Q1 C57 9*8 Q1",
    // The 72nd Mark fills the lane, and its mark is the last one to be carried: it is closed while it waits, and stays closed.
    "8*8 V9 M Q77 V9 M Q77 Q78 V7 V7 Q77 Q78 C77 Q77 V6 M Q78 C78 10*8 Q77",
    // The mark at 92, of the 85th Mark, is closed after it was carried and before the merge ends.
    "C81 V9 M 6*8 V9 M Q92 Q99 C99 6*7 Q92 V4 Q92 C92 Q92 C92 3*8 Q92",
    // The mark at 110, of the 102nd Mark, is asked while it waits, after it was carried, and when the merge has ended.
    "V9 M 8*8 V9 M Q110 Q119 C119 4*7 Q110 1*7 Q110 V6 Q110 V6 Q110 4*8 Q110",
    // The same mark through a further turn, of the 130th Mark: it is carried with the lower minimum of the lane between, and closed behind the merge.
    "9*5 Q110 V9 M Q110 Q140 V7 V7 M Q110 Q140 C140 M M C142 M \
     8*8 Q110 V5 Q110 V4 Q110 C110 Q110 C110",
];

// K = 60.
const SIXTY_MARKS: [&str; 5] = [
    // Fifteen marks with 14 minima, and the 16th Mark. In the merge some are asked that were carried and some that wait; the mark at 2 is closed after it was carried, that at 12 before.
    "V40 M V41 M V42 M V43 M V42 M V44 M V45 M V46 M V46 M V47 M \
     V48 M V49 M V50 M V51 M V52 M V53 M Q1 Q5 Q15 Q16 \
     V54 M V55 M Q1 Q5 Q15 Q17 V46 Q5 Q8 Q9 Q15 Q18 \
     C2 C12 Q2 Q12 M M C19 M V45 M V57 M V58 M V59 M Q7 Q11 Q2 Q12",
    // The board fills up. The 63rd Mark makes a turn with 59 active, the largest, and one more is refused.
    "V60 M V61 M V62 M V63 M V60 M V64 M V65 M V66 M V67 M V68 M \
     V69 M V70 M V71 M V72 M V73 M V74 M V75 M V76 M V77 M V78 M \
     V75 M V79 M V80 M V81 M V82 M V83 M V84 M V85 M V86 M V87 M \
     V88 M V89 M V90 M V91 M V92 M V93 M V94 M V95 M V96 M V97 M V98 M",
    // In its merge marks of all three lanes are asked, with minima of their own lane, of the one between and of the last; of both older lanes some are closed while they wait and some after they
    // were carried.
    "Q1 Q13 Q16 Q62 Q63 V44 Q1 Q4 Q13 Q62 Q63 C13 C62 Q13 Q62 \
     M M V45 C65 C4 M C66 M \
     3*100 C5 Q5 Q1 Q15 Q17 \
     12*99 C30 C60 Q30 Q60 Q29 Q59 Q66 \
     13*100 Q1 Q4 Q5 Q13 Q30 Q60 Q62 Q63",
    // Many are closed, so that after the turn of the 198th Mark there is room for half of the rows that are left: the merge ends when the lane is full.
    "C3 C6 C7 C8 C9 C10 C31 C32 C33 C34 C35 C36 C37 C38 C39 C40 \
     C41 C42 C43 C44 C45 C46 C47 C48 \
     104*98 Q1 Q14 Q63 V97 M Q1 Q14 Q63 V40 V40 Q1 Q14 Q63 Q199 C14 C61 Q14 Q61 \
     50*96 C16 C58 Q16 Q58 Q11 Q63 \
     45*95 Q1 Q11 Q14 Q16 Q58 Q61 Q63 Q199",
    // So the 294th Mark makes a turn again. The marks at 1, 63 and 199 have lived through four turns, two and one, and are closed behind the merge.
    "V94 M Q1 Q63 Q199 Q297 V90 V90 Q1 Q63 Q199 Q297 \
     60*93 Q1 Q63 \
     1*93 Q1 Q63 Q199 Q297 V39 V39 Q1 Q63 Q199 Q297 C1 Q1 C63 C199 C297",
];

// Scripts, a line each, on N words that hold the pattern and are opened; the last line ends with how many words from an index on were changed.
pub fn play<const N: usize>(
    rt: &(impl Print + Drop),
    scripts: &[&str],
    from: usize,
) -> io::Result<()>
    requires { N * 8 < 2 ^ 63 }
{
    let mut area = [0u64; N];
    compare::fill(&mut area);
    let mut board = Board::open(rt, &mut area)?;
    let Some((last, before)) = scripts.split_last() else {
        return board.end_changed(from);
    };
    for script in before {
        board.run(script)?;
        board.end()?;
    }
    board.run(last)?;
    board.end_changed(from)
}

pub fn sequences(rt: &(impl Print + Drop)) -> io::Result<()> {
    play::<639>(rt, &ONE_MARK, 576)?;
    play::<703>(rt, &TWO_MARKS, 640)?;
    play::<4415>(rt, &SIXTY_MARKS, 4352)
}

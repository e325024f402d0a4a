// The lines that a run writes: texts and decimal numbers, one behind the other, in the room that is lent for a line.
ghost use Rattle.std.specs.Prelude.{◌≡◌, ◌+◌, ◌≤◌, length};
ghost use Rattle.machine.specs.Answers.{number_of, place_of};
ghost use Rattle.player.specs.Text.{pasted, over, decimal_of, line_text, bad_text};

use machine::Answer;

// Every line has room in so many bytes.
pub(crate) const LINE_ROOM: usize = 64;

// A line as it is put together: how many bytes of the room are written.
#[derive(Drop)]
struct Line<'a> {
    room: &'a mut [u8; LINE_ROOM],
    written: usize,
}

impl Line<'_> {
    // Puts a text behind what is written.
    #[tactic(auto, using(house_record::proofs::LittleBytes::pasted_is))]
    fn put(&mut self, text: &[u8])
        requires { self.old.written + length text.now ≤ 64 }
        ensures same_room { self.new.room.ghost_name ≡ self.old.room.ghost_name }
        ensures written { self.new.written ≡ self.old.written + length text.now }
        ensures room { self.new.room.now ≡ pasted self.old.room.now self.old.written text.now }
    {
        let end = self.written + text.len();
        let room = &mut *self.room;
        room[self.written..end].copy_from_slice(text);
        self.written = end;
    }

    // Puts a decimal number behind what is written.
    fn put_number(&mut self, n: u64)
        requires { self.old.written + 20 ≤ 64 }
        ensures same_room { self.new.room.ghost_name ≡ self.old.room.ghost_name }
        ensures written { self.new.written ≡ self.old.written + length (decimal_of n) }
        ensures room { self.new.room.now ≡ pasted self.old.room.now self.old.written (decimal_of n) }
        ensures short { length (decimal_of n) ≤ 20 }
    {
        let mut digits = [0u8; 20];
        let count = io::decimal(n, &mut digits);
        self.put(&digits[..count]);
    }
}

// Puts the line of a request in front: its ordinal among requests, its number and its place. Answers the length of the line.
fn put_line(room: &mut [u8; LINE_ROOM], ordinal: u64, number: u32, place: u32) -> usize
    ensures { (result ≡ length (line_text ordinal number place)) × (room.new ≡ over (line_text ordinal number place) room.old) }
{
    let mut line = Line { room, written: 0 };
    line.put_number(ordinal);
    line.put(b" ");
    line.put_number(u64::from(number));
    line.put(b" ");
    line.put_number(u64::from(place));
    line.put(b"\n");
    line.written
}

// Puts the line of a request by its answer.
pub(crate) fn put_answer(room: &mut [u8; LINE_ROOM], ordinal: u64, answer: Answer) -> usize
    ensures { (result ≡ length (line_text ordinal (number_of answer) (place_of answer)))
        × (room.new ≡ over (line_text ordinal (number_of answer) (place_of answer)) room.old) }
{
    match answer {
        Ok(_) => put_line(room, ordinal, 0, 0),
        Err(refusal) => put_line(room, ordinal, u32::from(refusal.reason), refusal.place),
    }
}

// Puts the line of a bad record in front: its ordinal among all records. Answers the length of the line.
pub(crate) fn put_bad(room: &mut [u8; LINE_ROOM], ordinal: u64) -> usize
    ensures { (result ≡ length (bad_text ordinal)) × (room.new ≡ over (bad_text ordinal) room.old) }
{
    let mut line = Line { room, written: 0 };
    line.put(b"bad record ");
    line.put_number(ordinal);
    line.put(b"\n");
    line.written
}

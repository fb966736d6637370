// The functions of the C interface, which `hub_c` exports: each answers 0 when its work is done, and otherwise the refusal's
// number in document 01. It adds nothing to the operation that it calls. The names begin with the product's, since C has one
// space of names.
ghost use Rattle.std.specs.Prelude.{◌≡◌, length};
ghost use Rattle.flows.specs.Flows.{new_flow};
ghost use Rattle.sheets.specs.Answers.{list_answer, room_of_list, sheet_answer, sheet_room};
ghost use Rattle.law.specs.Check.{check};
ghost use Rattle.planner.specs.Plan.{plan_answer, plan_room};
ghost use Rattle.windows.specs.Window.{edges_of};
ghost use Rattle.offsets.specs.Adding.{add_answer, room_of_list as new_list_room, room_of_table as new_table_room};
ghost use Rattle.settings.specs.Slots.{channel};
ghost use Rattle.settings.specs.Tests.{settings_answer, settings_room};
ghost use Rattle.bases.specs.Tests.{round_answer, round_room};
ghost use Rattle.hub.specs.Codes.{code, value, check_value, window_first, window_bytes};

use refusals::Refusal;

// An answer as a number, with the value or the place through the pointer.
fn report(answer: Result<usize, Refusal>, out: &mut u64) -> u32
    ensures { (result ≡ code answer) × (out.new ≡ value answer) }
{
    match answer {
        Ok(n) => {
            *out = n as u64;
            0
        }
        Err(r) => {
            *out = r.place() as u64;
            r.number()
        }
    }
}

// Sheet to list: tests 20, 3, 4 and 9.
pub fn snowploughy_list_from_sheet(sheet: &[u8], room: &mut [u8], out: &mut u64) -> u32
    ensures number { result ≡ code (list_answer sheet.now (length room.old)) }
    ensures value { out.new ≡ value (list_answer sheet.now (length room.old)) }
    ensures room { room.new ≡ room_of_list sheet.now room.old }
{
    report(reading::list_from_sheet(sheet, room), out)
}

// List to sheet: tests 1 to 4 and 9.
pub fn snowploughy_sheet_from_list(list: &[u8], room: &mut [u8], out: &mut u64) -> u32
    ensures number { result ≡ code (sheet_answer list.now (length room.old)) }
    ensures value { out.new ≡ value (sheet_answer list.now (length room.old)) }
    ensures room { room.new ≡ sheet_room list.now room.old }
{
    report(printing::sheet_from_list(list, room), out)
}

// Planning: tests 1 to 10.
pub fn snowploughy_plan(list: &[u8], room: &mut [u8], out: &mut u64) -> u32
    ensures number { result ≡ code (plan_answer list.now (length room.old)) }
    ensures value { out.new ≡ value (plan_answer list.now (length room.old)) }
    ensures room { room.new ≡ plan_room list.now room.old }
{
    report(planner::plan(list, room), out)
}

// The check of a table against its list: tests 1 to 7 and 11 to 18. It writes nothing but the place.
pub fn snowploughy_check(list: &[u8], table: &[u8], out: &mut u64) -> u32
    ensures number { result ≡ code (check list.now table.now) }
    ensures value { out.new ≡ check_value (check list.now table.now) }
{
    report(checking::check(list, table).map(|()| 0), out)
}

// The grants that start in a window, as a stretch of the table: tests 11, 12 and 19.
pub fn snowploughy_window(table: &[u8], a: u64, b: u64, first: &mut u64, bytes: &mut u64) -> u32
    ensures number { result ≡ code (edges_of table.now a b) }
    ensures first { first.new ≡ window_first (edges_of table.now a b) }
    ensures bytes { bytes.new ≡ window_bytes (edges_of table.now a b) }
{
    match windows::edges_of(table, a, b) {
        Ok(edges) => {
            *first = edges.start as u64;
            *bytes = edges.end.saturating_sub(edges.start) as u64;
            0
        }
        Err(r) => {
            *first = 0;
            *bytes = 0;
            r.number()
        }
    }
}

// Adds one flow, given by four plain numbers, to a running table: the tests of the old list and table, then 3 to 6 on the new list,
// 21, 7 on the new list, 9 for either room, and 22. Done, the value is the offset.
pub fn snowploughy_live_add(
    list: &[u8],
    table: &[u8],
    number: u64,
    size: u64,
    interval: u64,
    jitter: u64,
    list_room: &mut [u8],
    table_room: &mut [u8],
    out: &mut u64,
) -> u32
    ensures number { result ≡ code (add_answer list.now table.now (new_flow number size interval jitter) (length list_room.old) (length table_room.old)) }
    ensures value { out.new ≡ value (add_answer list.now table.now (new_flow number size interval jitter) (length list_room.old) (length table_room.old)) }
    ensures list_room { list_room.new ≡ new_list_room list.now table.now (new_flow number size interval jitter) list_room.old (length table_room.old) }
    ensures table_room { table_room.new ≡ new_table_room list.now table.now (new_flow number size interval jitter) (length list_room.old) table_room.old }
{
    let added = adding::live_add(
        list, table, number, size, interval, jitter, list_room, table_room,
    );
    report(added, out)
}

// Modem settings to list, for a slot length in microseconds and bytes in a slot: tests 26, 23, 24, 25, 3 to 6 and 9.
pub fn snowploughy_list_from_settings(
    settings: &[u8],
    slot_microseconds: u64,
    slot_bytes: u64,
    room: &mut [u8],
    out: &mut u64,
) -> u32
    ensures number { result ≡ code (settings_answer (channel slot_microseconds slot_bytes) settings.now (length room.old)) }
    ensures value { out.new ≡ value (settings_answer (channel slot_microseconds slot_bytes) settings.now (length room.old)) }
    ensures room { room.new ≡ settings_room (channel slot_microseconds slot_bytes) settings.now room.old }
{
    report(
        converting::list_from_settings(settings, slot_microseconds, slot_bytes, room),
        out,
    )
}

// Rounding a list's intervals to a base: tests 1 to 5, 27, 28, 4 on the new list, and 9.
pub fn snowploughy_round_list(list: &[u8], base: u64, room: &mut [u8], out: &mut u64) -> u32
    ensures number { result ≡ code (round_answer base list.now (length room.old)) }
    ensures value { out.new ≡ value (round_answer base list.now (length room.old)) }
    ensures room { room.new ≡ round_room base list.now room.old }
{
    report(rounding::round_list(list, base, room), out)
}

//! The greatest statuses of a table's lists.
ghost use Rattle.std.specs.Prelude.{◌≡◌, ◌<◌, length};
ghost use Rattle.rbbi_model.specs.Places.{largest};
ghost use Rattle.rbbi_model.specs.Tables.{statuses_of};
ghost use Rattle.rbbi_scan.specs.Greatest.{AreGreatest};

use rbbi_table::Table;

/// How many lists are looked up once.
const KEPT: usize = 16;

/// The greatest statuses of a table's first lists.
#[derive(Drop)]
pub(crate) struct Greatest {
    pub(crate) statuses: [u32; KEPT],
}

/// The largest of the numbers, or 0 where there are none.
fn largest_of(numbers: &[u32]) -> u32
    ensures { result ≡ largest numbers.now }
{
    let mut most = 0;
    for number in numbers {
        most = most.max(*number);
    }
    most
}

impl Greatest {
    /// Those of this table.
    pub(crate) fn of(table: &Table) -> Greatest
        ensures { AreGreatest table.now result.statuses }
    {
        let mut statuses = [0; KEPT];
        for list in 0..table.lists().min(KEPT as u16) {
            statuses[list as usize] = largest_of(table.status_list(list));
        }
        Greatest { statuses }
    }

    /// The greatest status of a list.
    #[inline(always)]
    pub(crate) fn get(&self, table: &Table, list: u16) -> u32
        requires kept { AreGreatest table.now self.now.statuses }
        requires within { list < length table.now.lists }
        ensures { result ≡ largest (statuses_of table.now list) }
    {
        let number = list as usize;
        if number < KEPT {
            self.statuses[number]
        } else {
            largest_of(table.status_list(list))
        }
    }
}

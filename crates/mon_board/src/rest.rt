//! What the calls of a handle or of a stopped world leave as it was. No value of these types is made when the program
//! runs.
ghost use Rattle.atomic_table.specs.Seated.{TableId, table_id_coded};
ghost use base.Fml.{ftrue};

use mon_gate::Ended;
use mon_words::Mark;
use std::collections::LinkedList;
use std::marker::Model;

/// Of a thread's handle of a gate: the gate with its number of threads, and the tickets and ended numbers of the seat.
pub struct TableRest {
    pub ghost gate: { TableId } by { table_id_coded },
    pub threads: u64,
    pub tickets: u64,
    pub ended: LinkedList<Ended>,
}

impl Model for TableRest {
    ghost also_owns = { λ _. ftrue };
}

/// Of the stopped world of a gate: which controller it borrows, the gate, and the boards, tickets and ended numbers of the
/// controller.
pub struct HaltedTableRest {
    pub ghost gate: { TableId } by { table_id_coded },
    pub borrow: u64,
    pub mine: LinkedList<Mark>,
    pub tickets: u64,
    pub ended: LinkedList<Ended>,
}

impl Model for HaltedTableRest {
    ghost also_owns = { λ _. ftrue };
}

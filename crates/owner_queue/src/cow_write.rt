//! A write whose bytes are borrowed or owned.
use outside::CowBytes;
use partition_model::Op;
use std::marker::Model;

/// A write whose key and value may lie elsewhere. Clauses see the write.
#[derive(Drop)]
pub struct CowWrite<'a> {
    pub op: Op,
    pub key: CowBytes<'a>,
    pub value: CowBytes<'a>,
}

impl<'a> Model for CowWrite<'a> {
    ghost use Rattle.partition_model.specs.declared.write.Write.{Write};
    ghost use Rattle.partition_model.specs.Write.{write_of};

    ghost Value = { Write };

    ghost view = { λ w. write_of w.op w.key w.value };
}

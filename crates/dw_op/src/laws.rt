//! Laws of blocks, for the layers above. The functions do nothing: their contracts are proved.

ghost use Rattle.dw_op.specs.Laws.{BlockInRange, LeastExists, LeastIsBlock, LeastIsShortest, LeastIsOne};
ghost use Rattle.dw_op.specs.Laws.{FarHasNoBlock, LeastGivesBack, DecodedIsNear, BlockFaultsWithin};

/// What holds of the blocks and of the least blocks of a list of operations, and of the places of faults.
pub fn block_laws()
    ensures in_range { BlockInRange }
    ensures least_exists { LeastExists }
    ensures least_is_block { LeastIsBlock }
    ensures least_is_shortest { LeastIsShortest }
    ensures least_is_one { LeastIsOne }
    ensures far { FarHasNoBlock }
    ensures gives_back { LeastGivesBack }
    ensures near { DecodedIsNear }
    ensures within { BlockFaultsWithin }
{}

// Laws on lanes. Each function has an empty body; its contract is the law.
ghost use Rattle.conc_pool_lanes.specs.Laws.{LanesAreInOrder, LanesHaveRoom, ListsGrowByOne, ListsTakeOneMore};

/// At each moment what was taken from a lane is a beginning of what was put, in order; each of these was taken
/// once, by one pass; and the lane holds the others.
pub fn lanes_are_in_order()
    ensures { LanesAreInOrder }
{}

/// What was put into a lane grows by one request at most where a request is put.
pub fn lists_grow_by_one()
    ensures { ListsGrowByOne }
{}

/// What a run puts is fewer than a lane has room for, at each lawful list that has no resume since the run
/// began.
pub fn lanes_have_room()
    ensures { LanesHaveRoom }
{}

/// One more request joins the list of each manager that admits it.
pub fn lists_take_one_more()
    ensures { ListsTakeOneMore }
{}

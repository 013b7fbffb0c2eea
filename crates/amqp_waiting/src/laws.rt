//! What holds of the maps of unsettled deliveries that attaches tell.
ghost use Rattle.std.specs.Prelude.{◌≡◌, true, [], List, map, filter_map, unwrap_or};
ghost use Rattle.amqp_types.specs.View.{view};
ghost use Rattle.amqp_performatives.specs.declared.state.DeliveryState.{DeliveryState as State};
ghost use Rattle.amqp_performatives.specs.Part.{canonical};
ghost use Rattle.amqp_performatives.specs.Bodies.{state};
ghost use Rattle.amqp_waiting.specs.declared.item.SuspendedItem.{SuspendedItem};
ghost use Rattle.amqp_waiting.specs.OurUnsettled.{state_value, map_of, told_as, are_sendable};
ghost use Rattle.amqp_waiting.specs.PeerUnsettled.{told_in};

/// A state in the map is in its canonical form (`canonical`). What an attach tells of items is read by the peer as these items, in their order,
/// where a disposition could have their states (`read`).
pub fn told_is_read()
    ensures canonical { (s : State) → view (state_value s) ≡ canonical (state s) }
    ensures read { (is : List SuspendedItem) → are_sendable is ≡ true → filter_map told_in (unwrap_or (map_of is) []) ≡ map told_as is }
{}

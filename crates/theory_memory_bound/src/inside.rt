//! What lies in the session is what a clause sees of it.

ghost use Rattle.std.specs.Prelude.{◌≡◌, ◌+◌, ◌≤◌, length};
ghost use Rattle.model.specs.Tables.{total_size};
ghost use Rattle.theory_errors.specs.Held.{octets_begun};
ghost use Rattle.h1_reader.specs.HeadSizes.{field_octets};
ghost use Rattle.theory_responses.specs.Held.{octets_in, octets_held, head_octets, octets_of_fields};
ghost use Rattle.theory_memory_bound.specs.Held.{held_in};
ghost use Rattle.theory_memory_bound.specs.HeldInside.{in_field, in_ring, in_table, in_sender, in_head, in_trailers};
ghost use Rattle.theory_memory_bound.specs.HeldInside.{in_reader, in_connection, in_kept, in_offers, in_session};
ghost use Rattle.hpack_table.specs.declared.field.Field.TheInside.{Inside as FieldInside};
ghost use Rattle.hpack_table.specs.declared.field.Field.TheView.{view as field_seen, invariant as IsSoundField};
ghost use Rattle.hpack_table.specs.declared.ring.Ring.TheInside.{Inside as RingInside};
ghost use Rattle.hpack_table.specs.declared.ring.Ring.TheView.{view as ring_seen};
ghost use Rattle.hpack_table.specs.declared.table.Table.TheInside.{Inside as TableInside};
ghost use Rattle.hpack_table.specs.declared.table.Table.TheView.{view as table_seen};
ghost use Rattle.response_texts.specs.declared.passed.ResponseHead.TheInside.{Inside as HeadInside};
ghost use Rattle.response_texts.specs.declared.passed.ResponseHead.TheView.{view as head_seen};
ghost use Rattle.response_texts.specs.declared.passed.Trailers.TheInside.{Inside as TrailersInside};
ghost use Rattle.response_texts.specs.declared.passed.Trailers.TheView.{view as trailers_seen};
ghost use Rattle.h1_reader.specs.declared.reader.Reader.TheInside.{Inside as ReaderInside};
ghost use Rattle.h1_reader.specs.declared.reader.Reader.TheView.{view as reader_seen};
ghost use Rattle.h1_writer.specs.declared.sender.Sender.TheInside.{Inside as SenderInside};
ghost use Rattle.h1_writer.specs.declared.sender.Sender.TheView.{view as sender_seen};
ghost use Rattle.h1_writer.specs.Sending.{held_back};
ghost use Rattle.connection_state.specs.declared.connection.Connection.TheInside.{Inside as ConnectionInside};
ghost use Rattle.connection_state.specs.declared.connection.Connection.TheView.{view as connection_seen};
ghost use Rattle.send_queue.specs.declared.kept.Kept.TheInside.{Inside as KeptInside};
ghost use Rattle.send_queue.specs.declared.kept.Kept.TheView.{view as kept_seen};
ghost use Rattle.send_queue.specs.declared.offers.Offers.TheInside.{Inside as OffersInside};
ghost use Rattle.send_queue.specs.declared.offers.Offers.TheView.{view as offers_seen};
ghost use Rattle.refinement.specs.declared.session.Session.TheInside.{Inside as SessionInside};
ghost use Rattle.refinement.specs.declared.session.Session.TheView.{view as session_seen};

/// What lies between calls in a field, a header table and its ring, a head, trailers, the writer of
/// a request and a reader of a response is what a clause sees of them, and no octet more: each
/// field of the struct is counted (`specs/HeldInside`). In a table no more lies than its size.
pub fn what_is_kept_is_seen()
    ensures field { (field : FieldInside) → IsSoundField field → in_field field ≡ length (field_seen field).name + length (field_seen field).value }
    ensures ring { (ring : RingInside) → in_ring ring ≡ octets_of_fields (ring_seen ring) }
    ensures table { (table : TableInside) → in_table table ≤ total_size (table_seen table).fields }
    ensures head { (head : HeadInside) → in_head head ≡ head_octets (head_seen head) }
    ensures trailers { (trailers : TrailersInside) → in_trailers trailers ≡ octets_of_fields (trailers_seen trailers) }
    ensures sender { (sender : SenderInside) → in_sender sender ≡ held_back (sender_seen sender) }
    ensures reader { (reader : ReaderInside) → in_reader reader ≡ length (reader_seen reader).held.octets + field_octets (reader_seen reader).held.connections }
{}

/// The same of the session, and of all together, of which `little_is_kept` bounds what is seen. In
/// the streams that were opened, and in what waits of their DATA, no octets lie, by laws of
/// `streams` and `window_credit`.
pub fn what_the_session_holds_is_seen()
    ensures connection { (connection : ConnectionInside) → in_connection connection ≡ octets_begun (connection_seen connection).block
        + total_size (connection_seen connection).table.fields }
    ensures kept { (kept : KeptInside) → in_kept kept ≡ octets_in (kept_seen kept).box }
    ensures offers { (offers : OffersInside) → in_offers offers ≡ octets_held (offers_seen offers) }
    ensures session { (session : SessionInside) → in_session session ≡ held_in (session_seen session) }
{}
